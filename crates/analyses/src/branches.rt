// Analysis 4: branches on a number. The fact nowhere says that no run comes here, and reached says nothing about the state:
// which exit is taken is seen from the node alone. The exit not taken is nowhere, and `skip` may stand for the branch.
ghost use Rattle.std.specs.Prelude.{◌≡◌};
ghost use Rattle.analyses.specs.Reach.{reach_facts};
ghost use Rattle.analyses.specs.Branches.{fixed_exit, branch_moves};
ghost use Rattle.std.proofs.Common.{rules};

use crate::reach::Reach;
use analysis::analysis::{Analysis, Facts};
use analysis::proposal::Proposal;
use machine::node::{Node, Operand};

#[derive(Clone, Copy)]
pub struct Branches;

/// Bit 4.
const SET: u16 = 16;

/// The exit that a branch on a number takes.
fn fixed_exit(node: Node) -> Option<u8>
    ensures { result ≡ fixed_exit node }
{
    match node {
        Node::Br {
            on: Operand::Num(0),
        } => Some(1),
        Node::Br {
            on: Operand::Num(_),
        } => Some(0),
        _ => None,
    }
}

// The same functions as of `Arithmetic`: to share the impl, both would become one type with a parameter.
impl Facts for Branches {
    type Fact = Reach;

    ghost facts = { λ _. reach_facts };

    ghost shown = { Prim.search rules };

    fn nowhere(&self) -> Reach {
        Reach::NOWHERE
    }

    fn is_nowhere(&self, fact: &Reach) -> bool {
        !fact.reached
    }

    fn join(&self, fact: &mut Reach, more: &Reach) -> bool {
        fact.join(more)
    }
}

impl Analysis for Branches {
    ghost moves = { λ _. branch_moves };

    ghost sound = { Prim.search rules };

    fn start(&self) -> Reach {
        Reach::REACHED
    }

    fn flow(&self, fact: &Reach, node: Node, exit: u8) -> Reach {
        match fixed_exit(node) {
            Some(way) => Reach {
                reached: fact.reached & (exit == way),
            },
            None => *fact,
        }
    }

    fn propose(&self, fact: &Reach, node: Node) -> Option<Proposal> {
        fixed_exit(node).and_then(|way| fact.propose_one(Node::Skip, way, SET))
    }
}
