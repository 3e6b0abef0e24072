// The operands that a node reads.
ghost use Rattle.std.specs.Prelude.{◌≡◌, Bool};
ghost use Rattle.machine.specs.declared.node.Operand.{Operand};
ghost use Rattle.analyses.specs.Operands.{on_operands, any_operand};

use machine::node::{Node, Operand};

/// The node with each operand that it reads replaced.
pub(crate) fn on_operands<G: Fn(Operand) -> Operand>(node: Node, replace: G) -> Node
    requires { G.IsAlwaysCallable replace }
    ensures { (g : Operand → Operand) → ((x y : Operand) → G.post replace x y → y ≡ g x) → result ≡ on_operands g node }
{
    match node {
        Node::Mov { to, from } => Node::Mov {
            to,
            from: replace(from),
        },
        Node::Binary {
            op,
            to,
            left,
            right,
        } => Node::Binary {
            op,
            to,
            left: replace(left),
            right: replace(right),
        },
        Node::Out { from } => Node::Out {
            from: replace(from),
        },
        Node::St { cell, from } => Node::St {
            cell,
            from: replace(from),
        },
        Node::Br { on } => Node::Br { on: replace(on) },
        Node::In { .. } | Node::Ld { .. } | Node::Skip | Node::Halt | Node::Fail { .. } => node,
    }
}

/// Whether one of the operands that the node reads passes.
pub(crate) fn any_operand<P: Fn(Operand) -> bool>(node: Node, passes: P) -> bool
    requires { P.IsAlwaysCallable passes }
    ensures { (p : Operand → Bool) → ((x : Operand) (y : Bool) → P.post passes x y → y ≡ p x) → result ≡ any_operand p node }
{
    match node {
        Node::Mov { from: x, .. }
        | Node::Out { from: x }
        | Node::St { from: x, .. }
        | Node::Br { on: x } => passes(x),
        Node::Binary { left, right, .. } => passes(left) || passes(right),
        Node::In { .. } | Node::Ld { .. } | Node::Skip | Node::Halt | Node::Fail { .. } => false,
    }
}
