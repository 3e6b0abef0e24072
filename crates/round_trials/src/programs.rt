// Small programs, and what is looked for in them and in a change list.
use crate::driver::StandardFact;
use analyses::reach::Reach;
use analysis::pair::PairFact;
use analysis::proposal::ROW_LIMIT;
use machine::node::{Entry, NODE_LIMIT, Node, NodeNumber, Operand, Table};
use machine::program::Program;
use rounds::change::Change;
use std::test::Fail;

/// No change of a program has this number: it marks entries of a list that nobody wrote.
pub(crate) const NO_NODE: NodeNumber = 255;

pub(crate) const UNWRITTEN: Change = Change {
    at: NO_NODE,
    node: Node::Halt,
    row: [Node::Halt; ROW_LIMIT],
    len: 0,
    way: 0,
    set: 0,
};

/// Nowhere, of the standard pile.
pub(crate) const NOWHERE: StandardFact = PairFact {
    first: None,
    second: PairFact {
        first: None,
        second: PairFact {
            first: Reach::NOWHERE,
            second: Reach::NOWHERE,
        },
    },
};

// As in `trials`, whose helpers are for its own tests.
pub(crate) fn mov(to: u8, from: Operand) -> Node {
    Node::Mov { to, from }
}

/// A straight node, with the node that it leads to.
pub(crate) fn to(node: Node, next: NodeNumber) -> Entry {
    Entry {
        node,
        targets: [next, 0],
    }
}

pub(crate) fn branch(on: Operand, some: NodeNumber, zero: NodeNumber) -> Entry {
    Entry {
        node: Node::Br { on },
        targets: [some, zero],
    }
}

/// A node that ends the run.
pub(crate) fn end(node: Node) -> Entry {
    Entry {
        node,
        targets: [0; 2],
    }
}

/// The program of these entries, which begins at the first.
pub(crate) fn program(entries: &[Entry]) -> Result<Program, Fail> {
    let [first, rest @ ..] = entries else {
        return Err(Fail::new("no entries"));
    };
    let mut program = Program::halt();
    if program.append(rest) && program.replace(0, *first) {
        Ok(program)
    } else {
        Err(Fail::new("the entries are no program"))
    }
}

/// Skips, each leading to the next, and a halt: so many nodes, but at most as many as a program can have.
pub(crate) fn skips(count: usize) -> Result<Program, Fail> {
    let count = count.min(NODE_LIMIT);
    let mut table = Table::halting();
    let before_last = count.saturating_sub(1);
    for (i, entry) in table.entries[..before_last].iter_mut().enumerate() {
        *entry = to(Node::Skip, i as NodeNumber + 1);
    }
    Program::from_table(table, count as NodeNumber, 0).ok_or_else(|| Fail::new(
        "the skips are no program",
    ))
}

/// Whether a node of the program is this one, and leads there by exit 0.
pub(crate) fn has(program: &Program, at: usize, node: Node, next: NodeNumber) -> bool {
    program
        .entries()
        .get(at)
        .is_some_and(|entry| entry.node == node && entry.targets[0] == next)
}

/// Whether a change puts one node in the place of another.
pub(crate) fn puts(
    change: &Change,
    at: NodeNumber,
    node: Node,
    other: Node,
    way: u8,
    set: u16,
) -> bool {
    change.at == at
        && change.node == node
        && change.len == 1
        && change.row[0] == other
        && change.way == way
        && change.set == set
}
