// Labels that are not the next (refusal 4).
use crate::case::Case;

pub static LABELS: [Case; 8] = [
    Case {
        name: "label 1 first",
        text: b"1: halt\nend 1 from 0\n",
    },
    Case {
        name: "label 200 first",
        text: b"200: halt\nend 1 from 0\n",
    },
    Case {
        name: "label 255 first",
        text: b"255: halt\nend 1 from 0\n",
    },
    Case {
        name: "label before kind",
        text: b"1: nop\nend 1 from 0\n",
    },
    Case {
        name: "label 2 for 1",
        text: b"0: skip -> 1\n2: halt\nend 2 from 0\n",
    },
    Case {
        name: "label 0 again",
        text: b"0: skip -> 0\n0: halt\nend 2 from 0\n",
    },
    Case {
        name: "label 1 again",
        text: b"0: skip -> 1\n1: skip -> 2\n1: halt\nend 3 from 0\n",
    },
    Case {
        name: "label above a bad trailer",
        text: b"0: halt\n3: halt\nend x from 0\n",
    },
];
