// Texts with one byte many times over.
use crate::made::Made;
use std::alloc::{AllocError, Global};

#[derive(Clone, Copy)]
pub(crate) struct Stretched {
    name: &'static str,
    before: &'static [u8],
    byte: u8,
    times: usize,
    after: &'static [u8],
}

impl Made for Stretched {
    fn name(&self) -> &'static str {
        self.name
    }

    fn text(&self, heap: Global) -> Result<Vec<u8>, AllocError> {
        let mut text = Vec::from_slice(heap, self.before)?;
        for _ in 0..self.times {
            text.push(self.byte)?;
        }
        text.extend_from_slice(self.after)?;
        Ok(text)
    }
}

pub(crate) static STRETCHED: [Stretched; 15] = [
    Stretched {
        name: "number of 300 digits",
        before: b"0: mov r0 #",
        byte: b'4',
        times: 300,
        after: b" -> 0\nend 1 from 0\n",
    },
    Stretched {
        name: "number of 300 zeros",
        before: b"0: mov r0 #",
        byte: b'0',
        times: 300,
        after: b" -> 0\nend 1 from 0\n",
    },
    Stretched {
        name: "300 digits and a letter",
        before: b"0: mov r0 #",
        byte: b'4',
        times: 300,
        after: b"x -> 0\nend 1 from 0\n",
    },
    Stretched {
        name: "label of 300 digits",
        before: b"0: skip -> 1\n",
        byte: b'1',
        times: 300,
        after: b": halt\nend 2 from 0\n",
    },
    Stretched {
        name: "target of 300 digits",
        before: b"0: skip -> ",
        byte: b'2',
        times: 300,
        after: b"\nend 1 from 0\n",
    },
    Stretched {
        name: "300 digits of nodes",
        before: b"0: halt\nend ",
        byte: b'1',
        times: 300,
        after: b" from 0\n",
    },
    Stretched {
        name: "first node of 300 digits",
        before: b"0: halt\nend 1 from ",
        byte: b'9',
        times: 300,
        after: b"\n",
    },
    Stretched {
        name: "300 spaces",
        before: b"0:",
        byte: b' ',
        times: 300,
        after: b"halt\nend 1 from 0\n",
    },
    Stretched {
        name: "9216 bytes, a number",
        before: b"0: mov r0 #",
        byte: b'7',
        times: 9186,
        after: b" -> 0\nend 1 from 0\n",
    },
    Stretched {
        name: "9217 bytes, a number",
        before: b"0: mov r0 #",
        byte: b'7',
        times: 9187,
        after: b" -> 0\nend 1 from 0\n",
    },
    Stretched {
        name: "9216 bytes, no line feed",
        before: b"",
        byte: b'x',
        times: 9216,
        after: b"",
    },
    Stretched {
        name: "9217 bytes, no line feed",
        before: b"",
        byte: b'x',
        times: 9217,
        after: b"",
    },
    Stretched {
        name: "9216 line feeds",
        before: b"",
        byte: b'\n',
        times: 9216,
        after: b"",
    },
    Stretched {
        name: "9216 bytes, past the trailer",
        before: b"0: halt\nend 1 from 0\n",
        byte: b'\n',
        times: 9195,
        after: b"",
    },
    Stretched {
        name: "9217 bytes, past the trailer",
        before: b"0: halt\nend 1 from 0\n",
        byte: b'\n',
        times: 9196,
        after: b"",
    },
];
