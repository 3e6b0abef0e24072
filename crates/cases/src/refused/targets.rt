// Targets and first nodes that are not there (refusal 7).
use crate::case::Case;

pub static TARGETS: [Case; 14] = [
    Case {
        name: "target 1 of one node",
        text: b"0: skip -> 1\nend 1 from 0\n",
    },
    Case {
        name: "target 255",
        text: b"0: skip -> 255\nend 1 from 0\n",
    },
    Case {
        name: "exit 0 out of range",
        text: b"0: br r0 -> 1 1\nend 1 from 0\n",
    },
    Case {
        name: "exit 1 out of range",
        text: b"0: br r0 -> 0 1\nend 1 from 0\n",
    },
    Case {
        name: "target of in",
        text: b"0: in r0 -> 9\nend 1 from 0\n",
    },
    Case {
        name: "target of out",
        text: b"0: out #0 -> 9\nend 1 from 0\n",
    },
    Case {
        name: "target of mov",
        text: b"0: mov r0 #1 -> 9\nend 1 from 0\n",
    },
    Case {
        name: "target of ld",
        text: b"0: ld r0 c0 -> 9\nend 1 from 0\n",
    },
    Case {
        name: "target of st",
        text: b"0: st c0 #1 -> 9\nend 1 from 0\n",
    },
    Case {
        name: "target in the middle",
        text: b"0: skip -> 1\n1: mul r0 r1 r2 -> 3\n2: skip -> 3\nend 3 from 3\n",
    },
    Case {
        name: "target in the last node",
        text: b"0: skip -> 1\n1: skip -> 2\n2: skip -> 3\nend 3 from 3\n",
    },
    Case {
        name: "first node 1 of one",
        text: b"0: halt\nend 1 from 1\n",
    },
    Case {
        name: "first node 255",
        text: b"0: halt\nend 1 from 255\n",
    },
    Case {
        name: "first node 3 of three",
        text: b"0: skip -> 1\n1: skip -> 2\n2: halt\nend 3 from 3\n",
    },
];
