// Reads the line of a node.

ghost use Rattle.std.specs.Prelude.{◌≡◌};
ghost use Rattle.text.specs.Kinds.{kind_of};
ghost use Rattle.text.specs.Print.{operand_words, exit_words};
ghost use Rattle.text.specs.Rows.{operand_dues, exit_dues};
ghost use Rattle.text.specs.RowReads.{RowRead};
ghost use Rattle.text.specs.Entries.{NodeFits, TargetsFit, EntryRead};
ghost use Rattle.text.specs.Cuts.{parts};

use crate::kind::Kind;
use crate::read::due;
use crate::read::parts::Parts;
use crate::refusal::LineRefusal;
use machine::node::{Entry, Exits, Node, NodeNumber};

/// The node of a kind, by its operands.
fn node(words: &mut Parts, kind: Kind) -> Result<Node, LineRefusal>
    ensures { RowRead (operand_dues kind) operand_words (λ n. (kind_of n ≡ kind) × NodeFits n) words.old result words.new }
{
    match kind {
        Kind::Mov => {
            let to = words.read(due::register)?;
            let from = words.read(due::operand)?;
            Ok(Node::Mov { to, from })
        }
        Kind::Binary(op) => {
            let to = words.read(due::register)?;
            let left = words.read(due::operand)?;
            let right = words.read(due::operand)?;
            Ok(Node::Binary {
                op,
                to,
                left,
                right,
            })
        }
        Kind::In => {
            let to = words.read(due::register)?;
            Ok(Node::In { to })
        }
        Kind::Out => {
            let from = words.read(due::operand)?;
            Ok(Node::Out { from })
        }
        Kind::Ld => {
            let to = words.read(due::register)?;
            let cell = words.read(due::cell)?;
            Ok(Node::Ld { to, cell })
        }
        Kind::St => {
            let cell = words.read(due::cell)?;
            let from = words.read(due::operand)?;
            Ok(Node::St { cell, from })
        }
        Kind::Br => {
            let on = words.read(due::operand)?;
            Ok(Node::Br { on })
        }
        Kind::Skip => Ok(Node::Skip),
        Kind::Halt => Ok(Node::Halt),
        Kind::Fail => {
            let fault = words.read(due::fault)?;
            Ok(Node::Fail { fault })
        }
    }
}

/// The targets of the exits; 0 for an exit that is not there.
fn targets(words: &mut Parts, exits: Exits) -> Result<[NodeNumber; 2], LineRefusal>
    ensures { RowRead (exit_dues exits) (exit_words exits) (TargetsFit exits) words.old result words.new }
{
    match exits {
        Exits::None => Ok([0, 0]),
        Exits::One => {
            words.read(|word| due::exact(word, b"->"))?;
            let next = words.read(due::node_number)?;
            Ok([next, 0])
        }
        Exits::Two => {
            words.read(|word| due::exact(word, b"->"))?;
            let taken = words.read(due::node_number)?;
            let other = words.read(due::node_number)?;
            Ok([taken, other])
        }
    }
}

/// Reads the line of the node whose number is `next`.
pub(super) fn entry(line: &[u8], next: NodeNumber) -> Result<Entry, LineRefusal>
    ensures { EntryRead next (parts 32 line.now) result }
{
    let mut words = Parts::new(line, b' ');
    words.read(|word| due::label(word, next))?;
    let kind = words.read(due::named)?;
    let node = node(&mut words, kind)?;
    let targets = targets(&mut words, node.exits())?;
    words.finish()?;
    Ok(Entry { node, targets })
}
