// Texts of programs.
use crate::case::Case;

pub static ACCEPTED: [Case; 15] = [
    Case {
        name: "halt",
        text: b"0: halt\nend 1 from 0\n",
    },
    Case {
        name: "fail",
        text: b"0: fail !0\nend 1 from 0\n",
    },
    Case {
        name: "fault 255",
        text: b"0: fail !255\nend 1 from 0\n",
    },
    Case {
        name: "skip",
        text: b"0: skip -> 0\nend 1 from 0\n",
    },
    Case {
        name: "mov",
        text: b"0: mov r0 #0 -> 1\n1: mov r7 r0 -> 0\nend 2 from 1\n",
    },
    Case {
        name: "largest number",
        text: b"0: mov r0 #4294967295 -> 0\nend 1 from 0\n",
    },
    Case {
        name: "add and sub",
        text: b"0: add r0 r1 #2 -> 1\n1: sub r3 #4 r5 -> 0\nend 2 from 0\n",
    },
    Case {
        name: "mul, div and rem",
        text: b"0: mul r7 r7 r7 -> 1\n1: div r0 #7 #0 -> 2\n2: rem r0 r1 #10 -> 0\nend 3 from 2\n",
    },
    Case {
        name: "and, or and xor",
        text: b"0: and r0 r1 r2 -> 2\n1: or r0 #1 r2 -> 0\n2: xor r0 r0 r0 -> 1\nend 3 from 1\n",
    },
    Case {
        name: "shl and shr",
        text: b"0: shl r0 #1 #33 -> 1\n1: shr r0 r0 r7 -> 1\nend 2 from 0\n",
    },
    Case {
        name: "eq and lt",
        text: b"0: eq r0 r1 r2 -> 1\n1: lt r0 #4294967295 #0 -> 0\nend 2 from 0\n",
    },
    Case {
        name: "in and out",
        text: b"0: in r0 -> 1\n1: out r0 -> 2\n2: out #4294967295 -> 0\nend 3 from 0\n",
    },
    Case {
        name: "ld and st",
        text: b"0: ld r7 c63 -> 1\n1: st c0 r7 -> 2\n2: st c63 #9 -> 0\nend 3 from 0\n",
    },
    Case {
        name: "br",
        text: b"0: br r0 -> 0 1\n1: br #1 -> 2 0\n2: halt\nend 3 from 2\n",
    },
    Case {
        name: "two digits",
        text: b"0: skip -> 10\n\
            1: skip -> 0\n\
            2: skip -> 1\n\
            3: skip -> 2\n\
            4: skip -> 3\n\
            5: skip -> 4\n\
            6: skip -> 5\n\
            7: skip -> 6\n\
            8: skip -> 7\n\
            9: skip -> 8\n\
            10: skip -> 9\n\
            end 11 from 10\n",
    },
];
