// A program: at least one node, and every way through it stays inside it.
ghost use Rattle.std.specs.Prelude.{◌<◌, ◌≤◌};
ghost use Rattle.machine.specs.Limits.{node_limit};
ghost use Rattle.machine.specs.WellFormed.{AllSound};

mod edit;
pub mod run;
mod view;

use crate::node::{NodeNumber, Table};

// Without a heap, and to be `Copy`, a program is a table of fixed size with the number of its entries.
/// Its entries are the first `count` of the table; a run begins at the node `first`.
#[derive(Clone, Copy)]
pub struct Program {
    table: Table,
    count: NodeNumber,
    first: NodeNumber,
    ghost counted: { count ≤ node_limit },
    ghost starts: { first < count },
    ghost sound: { AllSound count table.entries },
}
