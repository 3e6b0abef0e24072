// Constants: a fact says of some registers which number they hold, whatever way a run came here, or that no run comes here.
// It allows the states whose registers hold the numbers of its present entries.
ghost use Rattle.std.specs.Prelude.{◌≡◌};
ghost use Rattle.analyses.specs.Constants.{known_facts, known_moves, known_operand, known_after, known_node, is_known, alters};
ghost use Rattle.analyses.specs.ConstantLaws.{known_shown, constants_sound};

use crate::entries::{Entries, Registers, entry, join, write};
use crate::folding::{calculate, fold, is_folded, number};
use crate::operands::{any_operand, on_operands};
use analysis::analysis::{Analysis, Facts};
use analysis::proposal::Proposal;
use machine::node::{Node, Operand};

#[derive(Clone, Copy)]
pub struct Constants;

/// Of each register the number that it holds, where that is known.
pub type Known = Entries<u32>;

/// Bit 1.
const SET: u16 = 2;

impl Facts for Constants {
    type Fact = Known;

    ghost facts = { λ _. known_facts };

    ghost shown = { λ a. known_shown };

    fn nowhere(&self) -> Known {
        None
    }

    fn is_nowhere(&self, fact: &Known) -> bool {
        fact.is_none()
    }

    fn join(&self, fact: &mut Known, more: &Known) -> bool {
        join(fact, more)
    }
}

/// A known register's number in its place.
fn filled(known: &Registers<u32>, operand: Operand) -> Operand
    ensures { result ≡ known_operand known.now operand }
{
    match operand {
        Operand::Reg(register) => entry(known, register).map_or(operand, Operand::Num),
        Operand::Num(_) => operand,
    }
}

/// Whether the operand is a register that is known.
fn is_known(known: &Registers<u32>, operand: Operand) -> bool
    ensures { result ≡ is_known known.now operand }
{
    match operand {
        Operand::Reg(_) => number(filled(known, operand)).is_some(),
        Operand::Num(_) => false,
    }
}

/// Goes over a node: what is known becomes what is known after it.
fn go_over(known: &mut Registers<u32>, node: Node)
    ensures { known.new ≡ known_after known.old node }
{
    let (register, entry) = match node {
        Node::Mov { to, from } => (to, number(filled(known, from))),
        Node::Binary {
            op,
            to,
            left,
            right,
        } => (to, calculate(op, filled(known, left), filled(known, right))),
        Node::In { to } | Node::Ld { to, .. } => (to, None),
        _ => return,
    };
    write(known, register, entry);
}

/// The node with what is known of its operands.
fn rewritten(known: &Registers<u32>, node: Node) -> Node
    ensures { result ≡ known_node known.now node }
{
    fold(on_operands(node, |operand| filled(known, operand)))
}

/// Whether that is another node.
fn is_altered(known: &Registers<u32>, node: Node) -> bool
    ensures { result ≡ alters known.now node }
{
    is_folded(node) || any_operand(node, |operand| is_known(known, operand))
}

impl Analysis for Constants {
    ghost moves = { λ _. known_moves };

    ghost sound = { λ a. constants_sound };

    fn start(&self) -> Known {
        Some([Some(0); 8])
    }

    fn flow(&self, fact: &Known, node: Node, _exit: u8) -> Known {
        let mut next = *fact;
        if let Some(known) = &mut next {
            go_over(known, node);
        }
        next
    }

    fn propose(&self, fact: &Known, node: Node) -> Option<Proposal> {
        match fact {
            Some(known) if is_altered(known, node) => {
                Some(Proposal::one(rewritten(known, node), 0, SET))
            }
            _ => None,
        }
    }
}
