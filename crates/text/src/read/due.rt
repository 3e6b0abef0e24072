// Reads a word by what is due in its place.

ghost use Rattle.std.specs.Prelude.{◌≡◌, ◌<◌, ◌≤◌, Some, codes, decimal, ◌≢◌};
ghost use Rattle.machine.specs.Limits.{node_limit};
ghost use Rattle.text.specs.Limits.{node_number_limit, fault_limit};
ghost use Rattle.text.specs.Print.{register_word, cell_word, fault_word, operand_word, label_word};
ghost use Rattle.text.specs.Rows.{exactly, register as a_register, cell as a_cell, fault as a_fault, value as a_value, target as a_target, label as a_label, name as a_name, kind_named};
ghost use Rattle.text.specs.Kinds.{kind_name};
ghost use Rattle.text.specs.WordReads.{WordRead, OperandFits};

use crate::cause::Cause;
use crate::kind::Kind;
use crate::read::numbers::number;
use crate::read::word::{before_colon, kind, lettered};
use machine::node::{NODE_LIMIT, NodeNumber, Operand};

/// The largest number of a label, a target, a count of nodes or a first node.
const NODE_NUMBER_LIMIT: u32 = 255;

const FAULT_LIMIT: u32 = 255;

// Here and below the letter and the limit are all that differs, and each function says which are due.
pub(super) fn register(part: &[u8]) -> Result<u8, Cause>
    ensures { WordRead a_register register_word (λ n. n ≤ 7) part.now result }
{
    Ok(lettered(part, b'r', 7)? as u8)
}

pub(super) fn cell(part: &[u8]) -> Result<u8, Cause>
    ensures { WordRead a_cell cell_word (λ n. n ≤ 63) part.now result }
{
    Ok(lettered(part, b'c', 63)? as u8)
}

pub(super) fn fault(part: &[u8]) -> Result<u8, Cause>
    ensures { WordRead a_fault fault_word (λ n. n ≤ fault_limit) part.now result }
{
    Ok(lettered(part, b'!', FAULT_LIMIT)? as u8)
}

pub(super) fn operand(part: &[u8]) -> Result<Operand, Cause>
    ensures { WordRead a_value operand_word OperandFits part.now result }
{
    match part {
        [b'r', ..] => Ok(Operand::Reg(register(part)?)),
        _ => Ok(Operand::Num(lettered(part, b'#', u32::MAX)?)),
    }
}

/// A target, a count of nodes or the first node.
pub(super) fn node_number(part: &[u8]) -> Result<NodeNumber, Cause>
    ensures { WordRead a_target decimal (λ n. n ≤ node_number_limit) part.now result }
{
    Ok(number(part, NODE_NUMBER_LIMIT)? as NodeNumber)
}

/// The kind that a word names.
pub(super) fn named(part: &[u8]) -> Result<Kind, Cause>
    ensures { WordRead a_name kind_name (λ k. kind_named (kind_name k) ≡ Some k) part.now result }
{
    kind(part).ok_or(Cause::IllFormed)
}

/// Sees that the label is that of the next node, and that such a node can exist.
pub(super) fn label(part: &[u8], next: NodeNumber) -> Result<(), Cause>
    ensures { WordRead (a_label next) (λ _. label_word next) (λ _. next ≢ node_limit) part.now result }
{
    let digits = before_colon(part).ok_or(Cause::IllFormed)?;
    let number = number(digits, NODE_NUMBER_LIMIT)?;
    if number != next as u32 {
        return Err(Cause::LabelNotNext);
    }
    if next as usize == NODE_LIMIT {
        return Err(Cause::TooManyNodes);
    }
    Ok(())
}

/// Sees that a word is the one that is due.
pub(super) fn exact(part: &[u8], due: &[u8]) -> Result<(), Cause>
    ensures { WordRead (exactly due.now) (λ _. due.now) (λ _. Unit {0}) part.now result }
{
    if part == due {
        Ok(())
    } else {
        Err(Cause::IllFormed)
    }
}
