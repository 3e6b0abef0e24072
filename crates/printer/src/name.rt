// The names of the kinds of nodes.
ghost use Rattle.std.specs.Prelude.{◌≡◌};
ghost use Rattle.text.specs.Kinds.{binary_name, kind_name, kind_of};

use machine::node::{BinaryOp, Node};
use text::kind::Kind;

fn binary_name(op: BinaryOp) -> &'static [u8]
    ensures { result.now ≡ binary_name op }
{
    match op {
        BinaryOp::Add => b"add",
        BinaryOp::Sub => b"sub",
        BinaryOp::Mul => b"mul",
        BinaryOp::Div => b"div",
        BinaryOp::Rem => b"rem",
        BinaryOp::And => b"and",
        BinaryOp::Or => b"or",
        BinaryOp::Xor => b"xor",
        BinaryOp::Shl => b"shl",
        BinaryOp::Shr => b"shr",
        BinaryOp::Eq => b"eq",
        BinaryOp::Lt => b"lt",
    }
}

/// The kind of a node.
pub(crate) fn kind_of(node: Node) -> Kind
    ensures { result ≡ kind_of node }
{
    match node {
        Node::Mov { .. } => Kind::Mov,
        Node::Binary { op, .. } => Kind::Binary(op),
        Node::In { .. } => Kind::In,
        Node::Out { .. } => Kind::Out,
        Node::Ld { .. } => Kind::Ld,
        Node::St { .. } => Kind::St,
        Node::Br { .. } => Kind::Br,
        Node::Skip => Kind::Skip,
        Node::Halt => Kind::Halt,
        Node::Fail { .. } => Kind::Fail,
    }
}

/// The name of a kind.
pub(crate) fn kind_name(kind: Kind) -> &'static [u8]
    ensures { result.now ≡ kind_name kind }
{
    match kind {
        Kind::Mov => b"mov",
        Kind::Binary(op) => binary_name(op),
        Kind::In => b"in",
        Kind::Out => b"out",
        Kind::Ld => b"ld",
        Kind::St => b"st",
        Kind::Br => b"br",
        Kind::Skip => b"skip",
        Kind::Halt => b"halt",
        Kind::Fail => b"fail",
    }
}
