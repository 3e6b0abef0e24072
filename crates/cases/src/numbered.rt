// Texts of many nodes.
use crate::made::Made;
use std::alloc::{AllocError, Global};

/// The lines of `nodes` nodes, with the same words after each label, and what follows them.
#[derive(Clone, Copy)]
pub(crate) struct Numbered {
    name: &'static str,
    words: &'static str,
    nodes: u8,
    after: &'static str,
}

impl Made for Numbered {
    fn name(&self) -> &'static str {
        self.name
    }

    fn text(&self, heap: Global) -> Result<Vec<u8>, AllocError> {
        let words = self.words;
        let mut text = String::new(heap);
        for label in 0..self.nodes {
            let line = format!(in heap; "{label}: {words}\n")?;
            text.push_str(line.as_str())?;
        }
        text.push_str(self.after)?;
        Ok(text.into_bytes())
    }
}

pub(crate) static NUMBERED: [Numbered; 17] = [
    Numbered {
        name: "200 nodes",
        words: "skip -> 199",
        nodes: 200,
        after: "end 200 from 199\n",
    },
    Numbered {
        name: "200 long nodes",
        words: "shl r7 #4294967295 #4294967295 -> 199",
        nodes: 200,
        after: "end 200 from 199\n",
    },
    Numbered {
        name: "201 nodes",
        words: "skip -> 199",
        nodes: 201,
        after: "end 201 from 0\n",
    },
    Numbered {
        name: "201 nodes, no kind",
        words: "skip -> 199",
        nodes: 200,
        after: "200: nop\nend 201 from 0\n",
    },
    Numbered {
        name: "label 0200 after 200 nodes",
        words: "skip -> 199",
        nodes: 200,
        after: "0200: halt\nend 201 from 0\n",
    },
    Numbered {
        name: "label 199 again",
        words: "skip -> 199",
        nodes: 200,
        after: "199: halt\nend 201 from 0\n",
    },
    Numbered {
        name: "label 201 after 200 nodes",
        words: "skip -> 199",
        nodes: 200,
        after: "201: halt\nend 201 from 0\n",
    },
    Numbered {
        name: "label 256 after 200 nodes",
        words: "skip -> 199",
        nodes: 200,
        after: "256: halt\nend 201 from 0\n",
    },
    Numbered {
        name: "no line feed after 200 nodes",
        words: "skip -> 199",
        nodes: 200,
        after: "200: halt",
    },
    Numbered {
        name: "no trailer below 200 nodes",
        words: "skip -> 199",
        nodes: 200,
        after: "",
    },
    Numbered {
        name: "199 told of 200 nodes",
        words: "skip -> 199",
        nodes: 200,
        after: "end 199 from 0\n",
    },
    Numbered {
        name: "201 told of 200 nodes",
        words: "skip -> 199",
        nodes: 200,
        after: "end 201 from 0\n",
    },
    Numbered {
        name: "node after 200 nodes and a trailer",
        words: "skip -> 199",
        nodes: 200,
        after: "end 200 from 0\n200: halt\n",
    },
    Numbered {
        name: "target 199 of 199 nodes",
        words: "skip -> 199",
        nodes: 199,
        after: "end 199 from 0\n",
    },
    Numbered {
        name: "target 200 in the last of 200",
        words: "skip -> 199",
        nodes: 199,
        after: "199: skip -> 200\nend 200 from 200\n",
    },
    Numbered {
        name: "first node 200 of 200",
        words: "skip -> 199",
        nodes: 200,
        after: "end 200 from 200\n",
    },
    Numbered {
        name: "fault in the last of 200",
        words: "skip -> 199",
        nodes: 199,
        after: "199: br r8 -> 0\nend 200 from 0\n",
    },
];
