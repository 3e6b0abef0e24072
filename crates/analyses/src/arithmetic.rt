// Analysis 3: arithmetic that a simpler node does. The fact nowhere says that no run comes here, and reached says nothing
// about the state: whether a simpler node does the same is seen from the node alone.
ghost use Rattle.std.specs.Prelude.{◌≡◌};
ghost use Rattle.analyses.specs.Reach.{reach_facts};
ghost use Rattle.analyses.specs.Arithmetic.{simpler, simpler_binary, arithmetic_moves};
ghost use Rattle.std.proofs.Common.{rules};
ghost use Rattle.analyses.specs.ArithmeticLaws.{arithmetic_sound};

use crate::reach::Reach;
use analysis::analysis::{Analysis, Facts};
use analysis::proposal::Proposal;
use machine::node::{BinaryOp, Node, Operand};

#[derive(Clone, Copy)]
pub struct Arithmetic;

/// Bit 3.
const SET: u16 = 8;

/// What does the same as a binary operation with a number on the right.
fn simpler_binary(op: BinaryOp, to: u8, left: Operand, right: u32) -> Option<Node>
    ensures { result ≡ simpler_binary op to left right }
{
    match op {
        BinaryOp::Add | BinaryOp::Sub if right == 0 => Some(Node::Mov { to, from: left }),
        BinaryOp::Mul | BinaryOp::Div if right == 1 => Some(Node::Mov { to, from: left }),
        BinaryOp::Mul if right == 0 => Some(Node::Mov {
            to,
            from: Operand::Num(0),
        }),
        _ => None,
    }
}

/// What does the same as the node.
fn simpler_node(node: Node) -> Option<Node>
    ensures { result ≡ simpler node }
{
    match node {
        Node::Mov {
            to,
            from: Operand::Reg(from),
        } if to == from => Some(Node::Skip),
        Node::Binary {
            op,
            to,
            left,
            right: Operand::Num(right),
        } => simpler_binary(op, to, left, right),
        _ => None,
    }
}

// The same functions as of `Branches`: to share the impl, both would become one type with a parameter.
impl Facts for Arithmetic {
    type Fact = Reach;

    ghost facts = { λ _. reach_facts };

    ghost shown = { Prim.search rules };

    fn nowhere(&self) -> Reach {
        Reach::NOWHERE
    }

    fn is_nowhere(&self, fact: &Reach) -> bool {
        !fact.reached
    }

    fn join(&self, fact: &mut Reach, more: &Reach) -> bool {
        fact.join(more)
    }
}

impl Analysis for Arithmetic {
    ghost moves = { λ _. arithmetic_moves };

    ghost sound = { λ a. arithmetic_sound };

    fn start(&self) -> Reach {
        Reach::REACHED
    }

    fn flow(&self, fact: &Reach, _node: Node, _exit: u8) -> Reach {
        *fact
    }

    fn propose(&self, fact: &Reach, node: Node) -> Option<Proposal> {
        simpler_node(node).and_then(|other| fact.propose_one(other, 0, SET))
    }
}
