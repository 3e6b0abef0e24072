// Marks that spread from node to node: the marked nodes whose exits have not been followed wait.
ghost use Rattle.std.specs.Prelude.{◌≡◌, ◌<◌, ◌≤◌, false, length, replicate};
ghost use Rattle.machine.specs.WellFormed.{exits_of};
ghost use Rattle.settling.specs.Working.{held};
ghost use Rattle.tidying.specs.Reached.{spread_to, spread_over, spread_first};
ghost use Rattle.tidying.specs.Targets.{TargetsBelow};

use machine::node::{Entry, Exits, NodeNumber};
use settling::worklist::Worklist;

/// The first node is marked, where none is, and waits.
pub(crate) fn begin<'a>(first: NodeNumber, marks: &'a mut [bool]) -> Worklist<'a, bool>
    requires there { first < length marks.old }
    requires few { length marks.old ≤ 256 }
    requires still { marks.old ≡ replicate (length marks.old) false }
    ensures exact { held result ≡ spread_first (length marks.old) first }
    ensures same { result.items.ghost_name ≡ marks.entry.ghost_name }
{
    let mut spread = Worklist::new(marks);
    spread.put(first, true);
    spread
}

/// Marks a node that was not marked, and has it wait.
fn mark(spread: &mut Worklist<bool>, node: NodeNumber)
    requires { node < length spread.old.items.now }
    ensures exact { held spread.new ≡ spread_to node (held spread.old) }
    ensures same { spread.new.items.ghost_name ≡ spread.old.items.ghost_name }
{
    if spread.get(node) == Some(false) {
        spread.put(node, true);
    }
}

/// Marks the targets of an entry's exits.
pub(crate) fn follow(spread: &mut Worklist<bool>, entry: Entry)
    requires { TargetsBelow (length spread.old.items.now) entry }
    ensures exact { held spread.new ≡ spread_over (exits_of entry.node) entry.targets (held spread.old) }
    ensures same { spread.new.items.ghost_name ≡ spread.old.items.ghost_name }
{
    match entry.node.exits() {
        Exits::None => {}
        Exits::One => mark(spread, entry.targets[0]),
        Exits::Two => {
            mark(spread, entry.targets[0]);
            mark(spread, entry.targets[1]);
        }
    }
}
