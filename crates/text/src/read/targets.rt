// Looks for targets that name no node.

ghost use Rattle.std.specs.Prelude.{◌≡◌, length};
ghost use Rattle.text.specs.Print.{operand_words};
ghost use Rattle.text.specs.Targets.{bad_target, bad_targets};

use machine::node::{Entry, Exits, Node, NodeNumber};

fn operand_count(node: Node) -> usize
    ensures { result ≡ length (operand_words node) }
{
    match node {
        Node::Skip | Node::Halt => 0,
        Node::In { .. } | Node::Out { .. } | Node::Br { .. } | Node::Fail { .. } => 1,
        Node::Mov { .. } | Node::Ld { .. } | Node::St { .. } => 2,
        Node::Binary { .. } => 3,
    }
}

/// The word of the entry's line that names the first target not below `count`.
fn bad_target(entry: Entry, count: NodeNumber) -> Option<usize>
    ensures { result ≡ bad_target count entry }
{
    let word = operand_count(entry.node) + 4;
    match entry.node.exits() {
        Exits::Two if entry.targets[0] < count && entry.targets[1] >= count => Some(word + 1),
        Exits::One | Exits::Two if entry.targets[0] >= count => Some(word),
        _ => None,
    }
}

// A place alone: `read` says for which cause.
/// The line and the word of the first target that is not below `count`.
pub(super) fn bad_targets(entries: &[Entry], count: NodeNumber) -> Option<(usize, usize)>
    ensures { result ≡ bad_targets count 0 entries.now }
{
    for (i, entry) in entries.iter().enumerate() {
        if let Some(word) = bad_target(*entry, count) {
            return Some((i + 1, word));
        }
    }
    None
}
