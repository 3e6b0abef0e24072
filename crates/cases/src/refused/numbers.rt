// Numbers with a leading zero, and numbers past their limit (refusal 3).
use crate::case::Case;

pub static NUMBERS: [Case; 32] = [
    Case {
        name: "label 00",
        text: b"00: halt\nend 1 from 0\n",
    },
    Case {
        name: "label 01",
        text: b"0: skip -> 1\n01: halt\nend 2 from 0\n",
    },
    Case {
        name: "label 256",
        text: b"256: halt\nend 1 from 0\n",
    },
    Case {
        name: "label 256 for 2",
        text: b"0: skip -> 1\n1: skip -> 2\n256: halt\nend 3 from 0\n",
    },
    Case {
        name: "label of 30 digits",
        text: b"100000000000000000000000000000: halt\nend 1 from 0\n",
    },
    Case {
        name: "r8 written",
        text: b"0: mov r8 #1 -> 0\nend 1 from 0\n",
    },
    Case {
        name: "r8 read first",
        text: b"0: add r0 r8 r1 -> 0\nend 1 from 0\n",
    },
    Case {
        name: "r8 read last",
        text: b"0: skip -> 1\n1: skip -> 2\n2: add r0 r1 r8 -> 0\nend 3 from 0\n",
    },
    Case {
        name: "r8 before a cell",
        text: b"0: mov r8 c0 -> 0\nend 1 from 0\n",
    },
    Case {
        name: "r07",
        text: b"0: in r07 -> 0\nend 1 from 0\n",
    },
    Case {
        name: "r256",
        text: b"0: br r256 -> 0 0\nend 1 from 0\n",
    },
    Case {
        name: "c64 loaded",
        text: b"0: ld r0 c64 -> 0\nend 1 from 0\n",
    },
    Case {
        name: "c64 stored",
        text: b"0: skip -> 1\n1: st c64 r0 -> 0\nend 2 from 0\n",
    },
    Case {
        name: "c00",
        text: b"0: st c00 r0 -> 0\nend 1 from 0\n",
    },
    Case {
        name: "number 4294967296",
        text: b"0: mov r0 #4294967296 -> 0\nend 1 from 0\n",
    },
    Case {
        name: "number 4294967296 last",
        text: b"0: sub r0 r1 #4294967296 -> 0\nend 1 from 0\n",
    },
    Case {
        name: "number 18446744073709551617",
        text: b"0: out #18446744073709551617 -> 0\nend 1 from 0\n",
    },
    Case {
        name: "number of 30 digits",
        text: b"0: mov r0 #999999999999999999999999999999 -> 0\nend 1 from 0\n",
    },
    Case {
        name: "30 zeros",
        text: b"0: mov r0 #000000000000000000000000000000 -> 0\nend 1 from 0\n",
    },
    Case {
        name: "number 00",
        text: b"0: mov r0 #00 -> 0\nend 1 from 0\n",
    },
    Case {
        name: "number 01",
        text: b"0: br #01 -> 0 0\nend 1 from 0\n",
    },
    Case {
        name: "fault 256",
        text: b"0: fail !256\nend 1 from 0\n",
    },
    Case {
        name: "fault 00",
        text: b"0: skip -> 1\n1: fail !00\nend 2 from 0\n",
    },
    Case {
        name: "target 256",
        text: b"0: skip -> 256\nend 1 from 0\n",
    },
    Case {
        name: "second target 256",
        text: b"0: br r0 -> 0 256\nend 1 from 0\n",
    },
    Case {
        name: "first target 256",
        text: b"0: br r0 -> 256 x\nend 1 from 0\n",
    },
    Case {
        name: "target 00",
        text: b"0: skip -> 1\n1: skip -> 00\nend 2 from 0\n",
    },
    Case {
        name: "256 nodes told",
        text: b"0: halt\nend 256 from 0\n",
    },
    Case {
        name: "01 nodes told",
        text: b"0: halt\nend 01 from 0\n",
    },
    Case {
        name: "first node 256",
        text: b"0: halt\nend 1 from 256\n",
    },
    Case {
        name: "first node 00",
        text: b"0: halt\nend 1 from 00\n",
    },
    Case {
        name: "first node 256 of no nodes",
        text: b"end 0 from 256\n",
    },
];
