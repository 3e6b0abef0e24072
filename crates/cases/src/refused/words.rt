// Words of a line that are ill-formed, missing or left over (refusal 2), from the third word on.
use crate::case::Case;

pub static WORDS: [Case; 44] = [
    Case {
        name: "cell for a register",
        text: b"0: mov c0 #1 -> 0\nend 1 from 0\n",
    },
    Case {
        name: "capital register",
        text: b"0: mov R0 #1 -> 0\nend 1 from 0\n",
    },
    Case {
        name: "register without digits",
        text: b"0: mov r #1 -> 0\nend 1 from 0\n",
    },
    Case {
        name: "number to write to",
        text: b"0: in #1 -> 0\nend 1 from 0\n",
    },
    Case {
        name: "register for a cell",
        text: b"0: skip -> 1\n1: st r0 r1 -> 0\nend 2 from 0\n",
    },
    Case {
        name: "digits for an operand",
        text: b"0: out 5 -> 0\nend 1 from 0\n",
    },
    Case {
        name: "number for a fault",
        text: b"0: fail #1\nend 1 from 0\n",
    },
    Case {
        name: "no fault",
        text: b"0: fail\nend 1 from 0\n",
    },
    Case {
        name: "cell for an operand",
        text: b"0: mov r0 c1 -> 0\nend 1 from 0\n",
    },
    Case {
        name: "register to load from",
        text: b"0: ld r0 r1 -> 0\nend 1 from 0\n",
    },
    Case {
        name: "number without digits",
        text: b"0: mov r0 # -> 0\nend 1 from 0\n",
    },
    Case {
        name: "number with a letter",
        text: b"0: mov r0 #1x -> 0\nend 1 from 0\n",
    },
    Case {
        name: "leading zero and a letter",
        text: b"0: mov r0 #00x -> 0\nend 1 from 0\n",
    },
    Case {
        name: "number with a high byte",
        text: b"0: mov r0 #\xb2 -> 0\nend 1 from 0\n",
    },
    Case {
        name: "number with a sign",
        text: b"0: mov r0 #-1 -> 0\nend 1 from 0\n",
    },
    Case {
        name: "one operand for two",
        text: b"0: mov r0 -> 0\nend 1 from 0\n",
    },
    Case {
        name: "two operands for three",
        text: b"0: add r0 r1 -> 0\nend 1 from 0\n",
    },
    Case {
        name: "line cut after an operand",
        text: b"0: add r0 r1\nend 1 from 0\n",
    },
    Case {
        name: "two spaces between operands",
        text: b"0: add r0  r1 r2 -> 0\nend 1 from 0\n",
    },
    Case {
        name: "faults from the left",
        text: b"0: mov c0 #4294967296 -> 0\nend 1 from 0\n",
    },
    Case {
        name: "no arrow",
        text: b"0: skip\nend 1 from 0\n",
    },
    Case {
        name: "another arrow",
        text: b"0: skip => 0\nend 1 from 0\n",
    },
    Case {
        name: "no space after the arrow",
        text: b"0: skip ->0\nend 1 from 0\n",
    },
    Case {
        name: "two spaces before the arrow",
        text: b"0: skip  -> 0\nend 1 from 0\n",
    },
    Case {
        name: "two spaces after the arrow",
        text: b"0: skip ->  0\nend 1 from 0\n",
    },
    Case {
        name: "no target",
        text: b"0: skip ->\nend 1 from 0\n",
    },
    Case {
        name: "target in letters",
        text: b"0: skip -> x\nend 1 from 0\n",
    },
    Case {
        name: "target with a colon",
        text: b"0: skip -> 1\n1: mul r0 r0 r0 -> 1:\nend 2 from 0\n",
    },
    Case {
        name: "arrow after halt",
        text: b"0: halt -> 0\nend 1 from 0\n",
    },
    Case {
        name: "arrow after fail",
        text: b"0: skip -> 1\n1: fail !1 -> 0\nend 2 from 0\n",
    },
    Case {
        name: "one target for two",
        text: b"0: br r0 -> 0\nend 1 from 0\n",
    },
    Case {
        name: "two targets for one",
        text: b"0: skip -> 0 0\nend 1 from 0\n",
    },
    Case {
        name: "three targets for two",
        text: b"0: br r0 -> 0 0 0\nend 1 from 0\n",
    },
    Case {
        name: "space after halt",
        text: b"0: halt \nend 1 from 0\n",
    },
    Case {
        name: "space after a target",
        text: b"0: skip -> 1\n1: skip -> 2\n2: skip -> 0 \nend 3 from 0\n",
    },
    Case {
        name: "end alone",
        text: b"0: halt\nend\n",
    },
    Case {
        name: "two spaces after end",
        text: b"0: halt\nend  1 from 0\n",
    },
    Case {
        name: "number of nodes in letters",
        text: b"0: halt\nend one from 0\n",
    },
    Case {
        name: "to for from",
        text: b"0: halt\nend 1 to 0\n",
    },
    Case {
        name: "from missing",
        text: b"0: halt\nend 1\n",
    },
    Case {
        name: "first node missing",
        text: b"0: halt\nend 1 from\n",
    },
    Case {
        name: "first node as a label",
        text: b"0: halt\nend 1 from 0:\n",
    },
    Case {
        name: "word after the trailer",
        text: b"0: halt\nend 1 from 0 0\n",
    },
    Case {
        name: "space after the trailer",
        text: b"0: halt\nend 1 from 0 \n",
    },
];
