// The work of settling: a fact for each node, and the nodes that wait.
ghost use Rattle.std.specs.Prelude.{◌≡◌, ◌<◌, ◌≤◌, true, length, slice_index};
ghost use Rattle.machine.specs.Programs.{program_of};
ghost use Rattle.machine.specs.Runs.{entry_of};
ghost use Rattle.machine.specs.WellFormed.{is_node, exits_of};
ghost use Rattle.settling.specs.Settling.{fact_at, arrived_at, crossed, over_exits, begun};
ghost use Rattle.settling.specs.Working.{held};

use crate::worklist::Worklist;
use analysis::analysis::{Analysis, Facts};
use machine::node::{Entry, Exits, NodeNumber};
use machine::program::Program;

/// Every node is nowhere but the first, which gets start and waits.
pub(crate) fn begin<'a, P: Analysis>(
    pile: &P,
    first: NodeNumber,
    facts: &'a mut [P::Fact],
) -> Worklist<'a, P::Fact>
    requires there { first < length facts.old }
    requires few { length facts.old ≤ 256 }
    ensures exact { held result ≡ begun (P.Facts.facts pile.now) (P.Analysis.moves pile.now) (length facts.old) first }
    ensures same { result.items.ghost_name ≡ facts.entry.ghost_name }
{
    // `fill` asks for a clone that cannot fail, which a fact that is `Copy` does not tell.
    for fact in facts.iter_mut() {
        *fact = pile.nowhere();
    }
    let mut work = Worklist::new(facts);
    work.put(first, pile.start());
    work
}

/// A fact comes to a node: it is joined into the fact there, and the node waits if that rose.
fn arrive<P: Facts>(pile: &P, work: &mut Worklist<P::Fact>, node: NodeNumber, fact: &P::Fact)
    requires there { node < length work.old.items.now }
    ensures exact { held work.new ≡ arrived_at (P.Facts.facts pile.now) node fact.now (held work.old) }
    ensures same { work.new.items.ghost_name ≡ work.old.items.ghost_name }
{
    if pile.is_nowhere(fact) {
        return;
    }
    let facts = &mut *work.items;
    if pile.join(&mut facts[node as usize], fact) {
        work.waiting.insert(node);
    }
}

/// A fact flows over one exit of an entry, to its target.
fn cross<P: Analysis>(
    pile: &P,
    work: &mut Worklist<P::Fact>,
    entry: Entry,
    fact: &P::Fact,
    exit: u8,
)
    requires node { is_node entry.node ≡ true }
    requires exit { exit < 2 }
    requires there { slice_index entry.targets exit < length work.old.items.now }
    ensures exact { held work.new ≡ crossed (P.Facts.facts pile.now) (P.Analysis.moves pile.now) entry fact.now exit (held work.old) }
    ensures same { work.new.items.ghost_name ≡ work.old.items.ghost_name }
{
    let flowed = pile.flow(fact, entry.node, exit);
    arrive(pile, work, entry.targets[exit as usize], &flowed);
}

/// Visits a node that has stopped waiting: its fact, as the visit began, flows over each exit, exit 0 first.
pub(crate) fn visit<P: Analysis>(
    pile: &P,
    program: &Program,
    work: &mut Worklist<P::Fact>,
    node: NodeNumber,
)
    requires there { node < length work.old.items.now }
    requires each { length work.old.items.now ≡ length (program_of program.now).entries }
    ensures exact { held work.new ≡ over_exits (P.Facts.facts pile.now) (P.Analysis.moves pile.now) (exits_of (entry_of (program_of program.now) node).node) (entry_of (program_of program.now) node) (fact_at (P.Facts.facts pile.now) (held work.old).items node) (held work.old) }
    ensures same { work.new.items.ghost_name ≡ work.old.items.ghost_name }
{
    let entry = program.entries()[node as usize];
    let fact = work.items[node as usize];
    match entry.node.exits() {
        Exits::None => {}
        Exits::One => cross(pile, work, entry, &fact, 0),
        Exits::Two => {
            cross(pile, work, entry, &fact, 0);
            cross(pile, work, entry, &fact, 1);
        }
    }
}
