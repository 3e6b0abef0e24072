// Nodes to ask about.
use machine::node::{BinaryOp, Node, Operand};

pub fn binary(op: BinaryOp, left: Operand, right: Operand) -> Node {
    Node::Binary {
        op,
        to: 0,
        left,
        right,
    }
}

pub fn mov(to: u8, from: Operand) -> Node {
    Node::Mov { to, from }
}
