// Analysis 5: proposes two skips for one, so that a round makes a program longer. Its facts are the sample's.
ghost use Rattle.sample.specs.Reached.{reached_facts};
ghost use Rattle.round_trials.specs.Doubling.{doubling_moves};
ghost use Rattle.std.proofs.Common.{rules};

use analysis::analysis::{Analysis, Facts};
use analysis::proposal::{Proposal, Row};
use machine::node::Node;
use sample::reached::Reached;

#[derive(Clone, Copy)]
pub struct Doubling;

/// Bit 5.
pub const SET: u16 = 32;

// An impl is for one type, so it passes its calls on to the sample.
impl Facts for Doubling {
    type Fact = bool;

    ghost facts = { λ _. reached_facts };

    ghost shown = { Prim.search rules };

    fn nowhere(&self) -> bool {
        Reached.nowhere()
    }

    fn is_nowhere(&self, fact: &bool) -> bool {
        Reached.is_nowhere(fact)
    }

    fn join(&self, fact: &mut bool, more: &bool) -> bool {
        Reached.join(fact, more)
    }
}

impl Analysis for Doubling {
    ghost moves = { λ _. doubling_moves };

    ghost sound = { Prim.search rules };

    fn start(&self) -> bool {
        true
    }

    fn flow(&self, fact: &bool, _node: Node, _exit: u8) -> bool {
        *fact
    }

    fn propose(&self, _fact: &bool, node: Node) -> Option<Proposal> {
        match node {
            Node::Skip => Some(Proposal {
                row: Row::from_slice(&[Node::Skip, Node::Skip])?,
                way: 0,
                set: SET,
            }),
            _ => None,
        }
    }
}
