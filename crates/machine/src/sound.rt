// Tests whether plain nodes and entries may stand in a program.
ghost use Rattle.std.specs.Prelude.{◌≡◌};
ghost use Rattle.machine.specs.WellFormed.{is_operand, is_node, exits_of, leads, sound};

use crate::node::{Entry, Exits, Node, NodeNumber, Operand};

impl Operand {
    fn is_sound(self) -> bool
        ensures { result ≡ is_operand self }
    {
        match self {
            Operand::Reg(r) => r < 8,
            Operand::Num(_) => true,
        }
    }
}

impl Node {
    // A node is plain data that anybody may fill, and an enum has no invariant: what runs a node requires this.
    /// Whether the registers and cells that the node names are there.
    pub fn is_sound(self) -> bool
        ensures { result ≡ is_node self }
    {
        match self {
            Node::Mov { to, from } => to < 8 && from.is_sound(),
            Node::Binary {
                to,
                left,
                right,
                ..
            } => to < 8 && left.is_sound() && right.is_sound(),
            Node::In { to } => to < 8,
            Node::Out { from } => from.is_sound(),
            Node::Ld { to, cell } => to < 8 && cell < 64,
            Node::St { cell, from } => cell < 64 && from.is_sound(),
            Node::Br { on } => on.is_sound(),
            Node::Skip | Node::Halt | Node::Fail { .. } => true,
        }
    }

    pub fn exits(self) -> Exits
        ensures { result ≡ exits_of self }
    {
        match self {
            Node::Br { .. } => Exits::Two,
            Node::Halt | Node::Fail { .. } => Exits::None,
            _ => Exits::One,
        }
    }
}

fn leads_below(exits: Exits, targets: [NodeNumber; 2], count: NodeNumber) -> bool
    ensures { result ≡ leads count exits targets }
{
    match exits {
        Exits::None => targets[0] == 0 && targets[1] == 0,
        Exits::One => targets[0] < count && targets[1] == 0,
        Exits::Two => targets[0] < count && targets[1] < count,
    }
}

impl Entry {
    /// Whether the entry may stand in a program of `count` nodes.
    pub fn is_sound(self, count: NodeNumber) -> bool
        ensures { result ≡ sound count self }
    {
        self.node.is_sound() && leads_below(self.node.exits(), self.targets, count)
    }
}
