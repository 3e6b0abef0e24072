// The nodes of a program, as plain values: anybody can make any of them.
ghost use Rattle.std.specs.Prelude.{◌≡◌, replicate};
ghost use Rattle.machine.specs.Limits.{node_limit};
ghost use Rattle.machine.specs.WellFormed.{halt};

/// The most nodes that a program can have.
pub const NODE_LIMIT: usize = 200;

/// The number of a node in its program, from 0; also how many nodes a program has.
pub type NodeNumber = u8;

/// A register to read, or a number.
#[derive(Clone, Copy, PartialEq, Eq, Debug)]
pub enum Operand {
    Reg(u8),
    Num(u32),
}

#[derive(Clone, Copy, PartialEq, Eq, Debug)]
pub enum BinaryOp {
    Add,
    Sub,
    Mul,
    Div,
    Rem,
    And,
    Or,
    Xor,
    Shl,
    Shr,
    Eq,
    Lt,
}

#[derive(Clone, Copy, PartialEq, Eq, Debug)]
pub enum Node {
    Mov {
        to: u8,
        from: Operand,
    },
    Binary {
        op: BinaryOp,
        to: u8,
        left: Operand,
        right: Operand,
    },
    In {
        to: u8,
    },
    Out {
        from: Operand,
    },
    Ld {
        to: u8,
        cell: u8,
    },
    St {
        cell: u8,
        from: Operand,
    },
    Br {
        on: Operand,
    },
    Skip,
    Halt,
    Fail {
        fault: u8,
    },
}

/// The exits of a node: a straight node has exit 0, `br` exits 0 and 1, and a node that ends every run has none.
#[derive(Clone, Copy, PartialEq, Eq, Debug)]
pub enum Exits {
    None,
    One,
    Two,
}

/// A node with the numbers of the nodes that its exits lead to; 0 in the place of an exit that it has not.
// Plain data that anybody may fill: with an enum of targets some entries that are refused today could not be written.
#[derive(Clone, Copy, PartialEq, Eq, Debug)]
pub struct Entry {
    pub node: Node,
    pub targets: [NodeNumber; 2],
}

/// Room for the most entries that a program can have.
#[derive(Clone, Copy)]
pub struct Table {
    pub entries: [Entry; NODE_LIMIT],
}

impl Table {
    /// A table in which every node halts.
    pub fn halting() -> Table
        ensures { result.entries ≡ replicate node_limit halt }
    {
        let halt = Entry {
            node: Node::Halt,
            targets: [0; 2],
        };
        Table {
            entries: [halt; NODE_LIMIT],
        }
    }
}
