// The changes that a round makes, and what it tells of them.
ghost use Rattle.std.specs.Prelude.{◌≡◌};
ghost use Rattle.rounds.specs.declared.change.RoundRefusal.TheVariants.{ShortTable as short_table};

use analysis::proposal::ROW_LIMIT;
use machine::node::{Node, NodeNumber};
use settling::settle::ShortTable;

/// A row in the place of a node, as plain data: the node's number and the node, the first `len` of `row`, the way, and the set of analyses.
// The length stands beside the array, and way and set are numbers, since anyone may fill a change list.
#[derive(Clone, Copy)]
pub struct Change {
    pub at: NodeNumber,
    pub node: Node,
    pub row: [Node; ROW_LIMIT],
    pub len: usize,
    pub way: u8,
    pub set: u16,
}

/// What a round tells: the changes made, those for which there was no room, and the visits of its settling.
#[derive(Clone, Copy, PartialEq, Eq, Debug)]
pub struct Counts {
    pub made: usize,
    pub short: usize,
    pub visits: u32,
}

/// Why a round is not begun.
#[derive(Clone, Copy, PartialEq, Eq, Debug)]
pub enum RoundRefusal {
    /// The table is shorter than the nodes.
    ShortTable { nodes: usize },
    /// The change list is shorter than the nodes.
    ShortList { nodes: usize },
}

impl From<ShortTable> for RoundRefusal {
    ghost from_gives = { λ short refusal. refusal ≡ short_table short.nodes };

    fn from(short: ShortTable) -> RoundRefusal {
        RoundRefusal::ShortTable { nodes: short.nodes }
    }
}
