// A set of node numbers.
ghost use Rattle.std.specs.Prelude.{◌≡◌, true, false, set, replicate, slice_set};
ghost use Rattle.settling.specs.NodeSets.{flags, lowest, without};

use machine::node::NodeNumber;

/// The words of a set: a bit for each number that a node can have.
const WORD_COUNT: usize = 4;

/// A set of node numbers: number k is bit k % 64 of word k / 64.
#[derive(Clone, Copy)]
pub struct NodeSet {
    words: [u64; WORD_COUNT],
}

impl NodeSet {
    /// The empty set.
    pub fn new() -> NodeSet
        ensures { flags result ≡ replicate 256 false }
    {
        NodeSet {
            words: [0; WORD_COUNT],
        }
    }

    /// Puts a number into the set.
    pub fn insert(&mut self, number: NodeNumber)
        ensures { flags self.new ≡ slice_set (flags self.old) number true }
    {
        self.words[number as usize / 64] |= 1 << (number % 64);
    }

    /// Takes the lowest number out of the set, if there is one.
    pub fn take_lowest(&mut self) -> Option<NodeNumber>
        ensures value { result ≡ lowest (flags self.old) }
        ensures after { flags self.new ≡ without result (flags self.old) }
    {
        for (i, word) in self.words.iter_mut().enumerate() {
            if *word != 0 {
                let bit = word.trailing_zeros();
                *word &= *word - 1;
                return Some(64 * i as NodeNumber + bit as NodeNumber);
            }
        }
        None
    }
}
