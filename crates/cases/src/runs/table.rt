// The runs to try.
use crate::runs::Run;

pub static RUNS: [Run; 27] = [
    Run {
        name: "budget 0",
        text: b"0: halt\nend 1 from 0\n",
        cells: 64,
        inputs: &[],
        room: 2,
        budget: 0,
    },
    Run {
        name: "budget 0 and no room",
        text: b"0: out #7 -> 0\nend 1 from 0\n",
        cells: 64,
        inputs: &[],
        room: 0,
        budget: 0,
    },
    Run {
        name: "halts",
        text: b"0: halt\nend 1 from 0\n",
        cells: 64,
        inputs: &[],
        room: 2,
        budget: 1,
    },
    Run {
        name: "fails",
        text: b"0: fail !255\nend 1 from 0\n",
        cells: 64,
        inputs: &[],
        room: 2,
        budget: 10,
    },
    Run {
        name: "begins at node 1",
        text: b"0: fail !1\n1: halt\nend 2 from 1\n",
        cells: 64,
        inputs: &[],
        room: 2,
        budget: 10,
    },
    Run {
        name: "7 divided by 0",
        text: b"0: div r0 #7 #0 -> 1\n1: halt\nend 2 from 0\n",
        cells: 64,
        inputs: &[],
        room: 2,
        budget: 10,
    },
    Run {
        name: "remainder by 0",
        text: b"0: rem r0 #7 r1 -> 1\n1: halt\nend 2 from 0\n",
        cells: 64,
        inputs: &[],
        room: 2,
        budget: 1,
    },
    Run {
        name: "divides after a word",
        text: b"0: out #7 -> 1\n1: div r0 #1 r2 -> 0\nend 2 from 0\n",
        cells: 64,
        inputs: &[],
        room: 2,
        budget: 10,
    },
    Run {
        name: "runs dry",
        text: b"0: in r0 -> 1\n1: out r0 -> 0\nend 2 from 0\n",
        cells: 64,
        inputs: &[],
        room: 2,
        budget: 10,
    },
    Run {
        name: "echoes three words",
        text: b"0: in r0 -> 1\n1: out r0 -> 0\nend 2 from 0\n",
        cells: 64,
        inputs: &[3, 4294967295, 0],
        room: 4,
        budget: 100,
    },
    Run {
        name: "echoes until the budget is spent",
        text: b"0: in r0 -> 1\n1: out r0 -> 0\nend 2 from 0\n",
        cells: 64,
        inputs: &[3, 4294967295, 0],
        room: 4,
        budget: 4,
    },
    Run {
        name: "echoes until the buffer is full",
        text: b"0: in r0 -> 1\n1: out r0 -> 0\nend 2 from 0\n",
        cells: 64,
        inputs: &[3, 4, 5],
        room: 1,
        budget: 100,
    },
    Run {
        name: "fills the buffer",
        text: b"0: out #7 -> 0\nend 1 from 0\n",
        cells: 64,
        inputs: &[],
        room: 2,
        budget: 100,
    },
    Run {
        name: "fills the buffer at the budget",
        text: b"0: out #7 -> 0\nend 1 from 0\n",
        cells: 64,
        inputs: &[],
        room: 2,
        budget: 2,
    },
    Run {
        name: "no room",
        text: b"0: out #7 -> 0\nend 1 from 0\n",
        cells: 64,
        inputs: &[],
        room: 0,
        budget: 1,
    },
    Run {
        name: "words go around",
        text: b"0: add r0 #4294967295 #1 -> 1\n\
            1: out r0 -> 2\n\
            2: sub r0 #0 #1 -> 3\n\
            3: out r0 -> 4\n\
            4: mul r0 #65536 #65537 -> 5\n\
            5: out r0 -> 6\n\
            6: shl r0 #1 #33 -> 7\n\
            7: out r0 -> 8\n\
            8: shl r0 #3 #31 -> 9\n\
            9: out r0 -> 10\n\
            10: halt\n\
            end 11 from 0\n",
        cells: 64,
        inputs: &[],
        room: 5,
        budget: 100,
    },
    Run {
        name: "bits and orders",
        text: b"0: and r0 #12 #10 -> 1\n\
            1: out r0 -> 2\n\
            2: or r0 #12 #10 -> 3\n\
            3: out r0 -> 4\n\
            4: xor r0 #12 #10 -> 5\n\
            5: out r0 -> 6\n\
            6: shr r0 #4294967295 #63 -> 7\n\
            7: out r0 -> 8\n\
            8: eq r0 #3 #3 -> 9\n\
            9: out r0 -> 10\n\
            10: lt r0 #3 #3 -> 11\n\
            11: out r0 -> 12\n\
            12: div r0 #17 #5 -> 13\n\
            13: out r0 -> 14\n\
            14: rem r0 #17 #5 -> 15\n\
            15: out r0 -> 16\n\
            16: halt\n\
            end 17 from 0\n",
        cells: 64,
        inputs: &[],
        room: 8,
        budget: 100,
    },
    Run {
        name: "loads and stores",
        text: b"0: ld r0 c0 -> 1\n\
            1: add r0 r0 #1 -> 2\n\
            2: st c63 r0 -> 3\n\
            3: ld r7 c63 -> 4\n\
            4: out r7 -> 5\n\
            5: halt\n\
            end 6 from 0\n",
        cells: 64,
        inputs: &[],
        room: 2,
        budget: 100,
    },
    Run {
        name: "stores before the division",
        text: b"0: st c1 #8 -> 1\n1: div r0 r0 r0 -> 0\nend 2 from 0\n",
        cells: 64,
        inputs: &[],
        room: 0,
        budget: 100,
    },
    Run {
        name: "branches",
        text: b"0: br #0 -> 1 2\n1: fail !1\n2: br #5 -> 4 3\n3: fail !3\n4: halt\nend 5 from 0\n",
        cells: 64,
        inputs: &[],
        room: 2,
        budget: 100,
    },
    Run {
        name: "largest budget",
        text: b"0: skip -> 0\nend 1 from 0\n",
        cells: 64,
        inputs: &[],
        room: 2,
        budget: 1_000_000,
    },
    Run {
        name: "no cells",
        text: b"0: skip -> 0\nend 1 from 0\n",
        cells: 0,
        inputs: &[],
        room: 2,
        budget: 1,
    },
    Run {
        name: "63 cells",
        text: b"0: out #7 -> 0\nend 1 from 0\n",
        cells: 63,
        inputs: &[],
        room: 2,
        budget: 1,
    },
    Run {
        name: "65 cells",
        text: b"0: out #7 -> 0\nend 1 from 0\n",
        cells: 65,
        inputs: &[],
        room: 2,
        budget: 1,
    },
    Run {
        name: "budget 1000001",
        text: b"0: out #7 -> 0\nend 1 from 0\n",
        cells: 64,
        inputs: &[],
        room: 2,
        budget: 1_000_001,
    },
    Run {
        name: "budget 4294967295",
        text: b"0: out #7 -> 0\nend 1 from 0\n",
        cells: 64,
        inputs: &[],
        room: 2,
        budget: 4_294_967_295,
    },
    Run {
        name: "63 cells and budget 1000001",
        text: b"0: out #7 -> 0\nend 1 from 0\n",
        cells: 63,
        inputs: &[],
        room: 2,
        budget: 1_000_001,
    },
];
