// Putting a row in the place of a node.
ghost use Rattle.std.specs.Prelude.{◌≡◌, ◌-◌, ◌<◌, ◌≤◌, true, length, take};
ghost use Rattle.machine.specs.Limits.{node_limit};
ghost use Rattle.machine.specs.Programs.{program_of};
ghost use Rattle.machine.specs.Runs.{entry_of};
ghost use Rattle.analysis.specs.Rows.{is_proposal, row_limit};
ghost use Rattle.rounds.specs.Changes.{replacement_of, leading, laid, changed_by};
ghost use Rattle.rounds.specs.Rounds.{size_after};

use crate::change::Change;
use analysis::proposal::ROW_LIMIT;
use machine::node::{Entry, Exits, Node, NodeNumber};
use machine::program::Program;

/// The entry of a node that stands for an old one and goes on to `next`.
fn lead(old: Entry, node: Node, next: NodeNumber) -> Entry
    ensures { result ≡ leading old node next }
{
    let targets = match node.exits() {
        Exits::None => [0, 0],
        Exits::One => [next, 0],
        Exits::Two => [next, old.targets[1]],
    };
    Entry { node, targets }
}

// Fixed memory: as many entries as a row can have, of which the change tells how many count.
/// The entries of a row that stands for an old entry: the first takes its place, the others are numbered from `count` on, each leads to the next, and the last to the old target by the way.
fn lay_out(old: Entry, change: &Change, count: NodeNumber) -> [Entry; ROW_LIMIT]
    requires room { (0 < count) × (count ≤ node_limit) }
    requires len { change.now.len ≤ row_limit }
    requires way { change.now.way < 2 }
    ensures { take change.now.len result ≡ laid old change.now.way (replacement_of change.now).row (count - 1) }
{
    let mut entries = [old; ROW_LIMIT];
    let row = &change.row[..change.len];
    for (i, node) in row.iter().enumerate() {
        let next = if i + 1 < row.len() {
            count + i as NodeNumber
        } else {
            old.targets[change.way as usize]
        };
        entries[i] = lead(old, *node, next);
    }
    entries
}

/// Makes a change for which there is room: the row's first node takes the place of the node, and the others are appended.
pub(crate) fn make(program: &mut Program, change: &Change)
    requires there { change.now.at < length (program_of program.old).entries }
    requires form { is_proposal (entry_of (program_of program.old) change.now.at).node (replacement_of change.now).row change.now.way change.now.set ≡ true }
    requires len { change.now.len ≤ row_limit }
    requires room { size_after (replacement_of change.now) (length (program_of program.old).entries) ≤ node_limit }
    ensures { program_of program.new ≡ changed_by (program_of program.old) (replacement_of change.now) }
{
    let old = program.entries()[change.at as usize];
    let entries = lay_out(old, change, program.count());
    program.append(&entries[1..change.len]);
    program.replace(change.at, entries[0]);
}
