// Marking the nodes that are reached.
ghost use Rattle.std.specs.Prelude.{◌≡◌, false, length, replicate};
ghost use Rattle.machine.specs.Programs.{prog, IsProgram};
ghost use Rattle.tidying.specs.Reached.{reached_marks};

use crate::spread::{begin, follow};
use machine::node::{Entry, NodeNumber};

// The entries were changed already: to make a program of them would copy the table again.
/// Marks the nodes that are reached from the first, of which none is marked yet.
pub(crate) fn reach(entries: &[Entry], first: NodeNumber, marks: &mut [bool])
    requires whole { IsProgram (prog entries.now first) }
    requires still { marks.old ≡ replicate (length entries.now) false }
    ensures { marks.new ≡ reached_marks (prog entries.now first) }
{
    let mut spread = begin(first, marks);
    while let Some(node) = spread.take_lowest() {
        follow(&mut spread, entries[node as usize]);
    }
}
