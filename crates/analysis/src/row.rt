// Whether a row, a way and a set have the form of a proposal for a node.
ghost use Rattle.std.specs.Prelude.{◌≡◌, ◌&&◌};
ghost use Rattle.std.specs.List.{list_all};
ghost use Rattle.machine.specs.WellFormed.{is_node, exits_of};
ghost use Rattle.analysis.specs.Rows.{last_fits, is_straight, row_fits, set_fits, is_proposal};

use crate::proposal::ROW_LIMIT;
use machine::node::{Exits, Node};

// A table over two values: there is nothing to compare.
/// Whether a row for a node with these exits may end with a node with those, and leave by the way.
fn last_fits(exits: Exits, last: Exits, way: u8) -> bool
    ensures { result ≡ last_fits exits last way }
{
    match (exits, last) {
        (Exits::Two, Exits::One) => way < 2,
        (Exits::One, Exits::One) | (Exits::Two, Exits::Two) | (Exits::None, Exits::None) => way
            == 0,
        _ => false,
    }
}

fn is_straight(node: Node) -> bool
    ensures { result ≡ is_straight (exits_of node) }
{
    matches!(node.exits(), Exits::One)
}

/// Whether each is a straight node of the machine.
fn all_straight(nodes: &[Node]) -> bool
    ensures { result ≡ list_all (λ n. is_node n && is_straight (exits_of n)) nodes.now }
{
    nodes
        .iter()
        .all(|node| node.is_sound() && is_straight(*node))
}

fn row_fits(exits: Exits, way: u8, row: &[Node]) -> bool
    ensures { result ≡ row_fits exits way row.now }
{
    // With `is_some_and` the proof doesn't close: what the closure answers is not known.
    match row.split_last() {
        Some((last, before)) => {
            all_straight(before) && last.is_sound() && last_fits(exits, last.exits(), way)
        }
        None => false,
    }
}

fn set_fits(set: u16) -> bool
    ensures { result ≡ set_fits set }
{
    set > 0 && set % 2 == 0
}

/// Whether the row, the way and the set may be proposed for the node, whatever the row does.
pub fn is_proposal(node: Node, row: &[Node], way: u8, set: u16) -> bool
    ensures { result ≡ is_proposal node row.now way set }
{
    row.len() <= ROW_LIMIT && row_fits(node.exits(), way, row) && set_fits(set)
}
