// Numbers in the place of operations on numbers.
ghost use Rattle.std.specs.Prelude.{◌≡◌};
ghost use Rattle.analyses.specs.Folding.{number_of, calculated, folded, folds};

use machine::arithmetic::compute;
use machine::node::{BinaryOp, Node, Operand};

/// The number that an operand is.
pub(crate) fn number(operand: Operand) -> Option<u32>
    ensures { result ≡ number_of operand }
{
    match operand {
        Operand::Reg(_) => None,
        Operand::Num(value) => Some(value),
    }
}

/// The result of an operation on two numbers.
pub(crate) fn calculate(op: BinaryOp, left: Operand, right: Operand) -> Option<u32>
    ensures { result ≡ calculated op left right }
{
    match (left, right) {
        (Operand::Num(x), Operand::Num(y)) => compute(op, x, y),
        _ => None,
    }
}

/// A binary node on two numbers becomes the number that it makes.
pub(crate) fn fold(node: Node) -> Node
    ensures { result ≡ folded node }
{
    if let Node::Binary {
        op,
        to,
        left,
        right,
    } = node
    {
        if let Some(value) = calculate(op, left, right) {
            return Node::Mov {
                to,
                from: Operand::Num(value),
            };
        }
    }
    node
}

/// Whether that is another node.
pub(crate) fn is_folded(node: Node) -> bool
    ensures { result ≡ folds node }
{
    matches!(node, Node::Binary { op, left, right, .. } if calculate(op, left, right).is_some())
}
