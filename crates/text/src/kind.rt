// The kinds of nodes, as the text names them.
use machine::node::BinaryOp;

#[derive(Clone, Copy, PartialEq, Eq, Debug)]
pub enum Kind {
    Mov,
    Binary(BinaryOp),
    In,
    Out,
    Ld,
    St,
    Br,
    Skip,
    Halt,
    Fail,
}
