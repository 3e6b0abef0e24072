// The words of a line.
ghost use Rattle.std.specs.Prelude.{◌≡◌};
ghost use Rattle.std.specs.Option.{option_map};
ghost use Rattle.text.specs.Words.{BinaryRead, KindRead, LetterRead, before_colon};

use crate::cause::Cause;
use crate::kind::Kind;
use crate::read::numbers::number;
use machine::node::BinaryOp;

/// The binary operation that a word names.
fn binary_op(part: &[u8]) -> Option<BinaryOp>
    ensures { BinaryRead part.now result }
{
    match part {
        b"add" => Some(BinaryOp::Add),
        b"sub" => Some(BinaryOp::Sub),
        b"mul" => Some(BinaryOp::Mul),
        b"div" => Some(BinaryOp::Div),
        b"rem" => Some(BinaryOp::Rem),
        b"and" => Some(BinaryOp::And),
        b"or" => Some(BinaryOp::Or),
        b"xor" => Some(BinaryOp::Xor),
        b"shl" => Some(BinaryOp::Shl),
        b"shr" => Some(BinaryOp::Shr),
        b"eq" => Some(BinaryOp::Eq),
        b"lt" => Some(BinaryOp::Lt),
        _ => None,
    }
}

/// The kind that a word names.
pub(super) fn kind(part: &[u8]) -> Option<Kind>
    ensures { KindRead part.now result }
{
    match part {
        b"mov" => Some(Kind::Mov),
        b"in" => Some(Kind::In),
        b"out" => Some(Kind::Out),
        b"ld" => Some(Kind::Ld),
        b"st" => Some(Kind::St),
        b"br" => Some(Kind::Br),
        b"skip" => Some(Kind::Skip),
        b"halt" => Some(Kind::Halt),
        b"fail" => Some(Kind::Fail),
        _ => binary_op(part).map(Kind::Binary),
    }
}

/// What stands before a label's colon.
pub(super) fn before_colon(part: &[u8]) -> Option<&[u8]>
    ensures { option_map (λ x. x.now) result ≡ before_colon part.now }
{
    part.strip_suffix(b":")
}

/// The number behind a letter.
pub(super) fn lettered(part: &[u8], letter: u8, limit: u32) -> Result<u32, Cause>
    ensures { LetterRead letter limit part.now result }
{
    match part.split_first() {
        Some((first, digits)) if *first == letter => number(digits, limit),
        _ => Err(Cause::IllFormed),
    }
}
