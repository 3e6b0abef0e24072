// Lines and words that are ill-formed (refusal 2), from the line feed to the first two words.
use crate::case::Case;

pub static LINES: [Case; 34] = [
    Case {
        name: "no line feed",
        text: b"0: halt",
    },
    Case {
        name: "no line feed in a middle line",
        text: b"0: skip -> 1\n1: skip -> 2",
    },
    Case {
        name: "no line feed after the trailer",
        text: b"0: halt\nend 1 from 0",
    },
    Case {
        name: "a lone end",
        text: b"end",
    },
    Case {
        name: "line feed before words",
        text: b"0: halt\nend x to",
    },
    Case {
        name: "carriage returns alone",
        text: b"0: halt\rend 1 from 0\r",
    },
    Case {
        name: "carriage return in a node line",
        text: b"0: halt\r\nend 1 from 0\r\n",
    },
    Case {
        name: "carriage return in the trailer",
        text: b"0: halt\nend 1 from 0\r\n",
    },
    Case {
        name: "one line feed",
        text: b"\n",
    },
    Case {
        name: "one space",
        text: b" \n",
    },
    Case {
        name: "empty first line",
        text: b"\n0: halt\nend 1 from 0\n",
    },
    Case {
        name: "empty middle line",
        text: b"0: skip -> 1\n\n1: halt\nend 2 from 0\n",
    },
    Case {
        name: "empty line above the trailer",
        text: b"0: halt\n\nend 1 from 0\n",
    },
    Case {
        name: "space before a label",
        text: b" 0: halt\nend 1 from 0\n",
    },
    Case {
        name: "space before end",
        text: b"0: halt\n end 1 from 0\n",
    },
    Case {
        name: "label without a colon",
        text: b"0 halt\nend 1 from 0\n",
    },
    Case {
        name: "label without digits",
        text: b": halt\nend 1 from 0\n",
    },
    Case {
        name: "label with two colons",
        text: b"0:: halt\nend 1 from 0\n",
    },
    Case {
        name: "label in hexadecimal",
        text: b"0x0: halt\nend 1 from 0\n",
    },
    Case {
        name: "label with a sign",
        text: b"0: skip -> 1\n+1: halt\nend 2 from 0\n",
    },
    Case {
        name: "no space after the label",
        text: b"0:halt\nend 1 from 0\n",
    },
    Case {
        name: "tab after the label",
        text: b"0:\thalt\nend 1 from 0\n",
    },
    Case {
        name: "byte 255",
        text: b"\xff: halt\nend 1 from 0\n",
    },
    Case {
        name: "byte order mark",
        text: b"\xef\xbb\xbf0: halt\nend 1 from 0\n",
    },
    Case {
        name: "byte 0",
        text: b"0: skip -> 1\n1:\0 halt\nend 2 from 0\n",
    },
    Case {
        name: "End",
        text: b"0: halt\nEnd 1 from 0\n",
    },
    Case {
        name: "ends",
        text: b"0: halt\nends 1 from 0\n",
    },
    Case {
        name: "no kind",
        text: b"0:\nend 1 from 0\n",
    },
    Case {
        name: "space for a kind",
        text: b"0: \nend 1 from 0\n",
    },
    Case {
        name: "two spaces before the kind",
        text: b"0:  halt\nend 1 from 0\n",
    },
    Case {
        name: "unknown kind",
        text: b"0: nop -> 0\nend 1 from 0\n",
    },
    Case {
        name: "kind in capitals",
        text: b"0: skip -> 1\n1: HALT\nend 2 from 0\n",
    },
    Case {
        name: "kind with a high byte",
        text: b"0: skip -> 1\n1: skip -> 2\n2: h\xe4lt\nend 3 from 0\n",
    },
    Case {
        name: "kind and more letters",
        text: b"0: halted\nend 1 from 0\n",
    },
];
