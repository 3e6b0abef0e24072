// Trailers that are missing, early or wrong (refusal 6).
use crate::case::Case;

pub static TRAILERS: [Case; 16] = [
    Case {
        name: "empty text",
        text: b"",
    },
    Case {
        name: "no trailer below one node",
        text: b"0: halt\n",
    },
    Case {
        name: "no trailer below three nodes",
        text: b"0: skip -> 1\n1: skip -> 2\n2: halt\n",
    },
    Case {
        name: "trailer alone",
        text: b"end 0 from 0\n",
    },
    Case {
        name: "one node told, none there",
        text: b"end 1 from 0\n",
    },
    Case {
        name: "no node told, one there",
        text: b"0: halt\nend 0 from 0\n",
    },
    Case {
        name: "two nodes told, one there",
        text: b"0: halt\nend 2 from 0\n",
    },
    Case {
        name: "255 nodes told, one there",
        text: b"0: halt\nend 255 from 0\n",
    },
    Case {
        name: "two nodes told, three there",
        text: b"0: skip -> 1\n1: skip -> 2\n2: halt\nend 2 from 0\n",
    },
    Case {
        name: "empty line after the trailer",
        text: b"0: halt\nend 1 from 0\n\n",
    },
    Case {
        name: "byte after the trailer",
        text: b"0: halt\nend 1 from 0\nx",
    },
    Case {
        name: "node after the trailer",
        text: b"0: halt\nend 1 from 0\n1: halt\n",
    },
    Case {
        name: "two trailers",
        text: b"0: halt\nend 1 from 0\nend 1 from 0\n",
    },
    Case {
        name: "node after a trailer alone",
        text: b"end 0 from 0\n0: halt\n",
    },
    Case {
        name: "bytes before the count",
        text: b"0: halt\nend 2 from 0\nx",
    },
    Case {
        name: "count before targets",
        text: b"0: skip -> 9\nend 2 from 9\n",
    },
];
