// An analysis whose proposals are followed three levels deep.
ghost use Rattle.std.specs.Prelude.{◌≡◌, ◌+◌, ◌-◌, ◌<◌, ◌≤◌, true, length};
ghost use Rattle.machine.specs.declared.node.Node.TheVariants.{Skip};
ghost use Rattle.machine.specs.WellFormed.{is_node, exits_of};
ghost use Rattle.machine.specs.declared.node.Node.{Node};
ghost use Rattle.analysis.specs.Analyses.{MovesShow, nodes_of};
ghost use Rattle.analysis.specs.Facts.{FactsShow};
ghost use Rattle.analysis.specs.Deeps.{course_of, taken_up, kept, fact_past, looked, course, deep_moves, fact_at, last_of};
ghost use Rattle.analysis.specs.Turns.{Turns, begins_at, ends_at};
ghost use Rattle.analysis.specs.DeepLaws.{deep_sound};

use crate::analysis::{Analysis, Facts};
use crate::proposal::{Proposal, ROW_LIMIT, Row};
use machine::node::{Exits, Node};

/// Entries are replaced at depths below this.
const DEPTH_LIMIT: u8 = 3;

#[derive(Drop)]
pub struct Deep<A> {
    pub inner: A,
}

/// How far the rewriting of a row has come: the nodes of `row` are finished, and `fact` holds behind them.
// Way and set say something where nothing is replaced: way 0, and no analysis.
#[derive(Clone, Copy)]
pub struct Walk<F> {
    fact: F,
    row: Row,
    way: u8,
    set: u16,
    replaced: bool,
}

/// The proposal's way, if the node is a branch, and its set become the walk's.
fn take_up<F>(walk: &mut Walk<F>, node: Node, proposal: &Proposal)
    ensures course { course_of walk.new ≡ taken_up node proposal.now.way proposal.now.set (course_of walk.old) }
    ensures row { walk.new.row ≡ walk.old.row }
{
    if let Exits::Two = node.exits() {
        walk.way = proposal.way;
    }
    walk.set |= proposal.set;
    walk.replaced = true;
}

/// The fact behind an entry: it flows over a straight one.
fn past<A: Analysis>(a: &A, fact: &A::Fact, node: Node) -> A::Fact
    requires { is_node node ≡ true }
    ensures { result ≡ fact_past (A.Analysis.moves a.now) (exits_of node) fact.now node }
{
    match node.exits() {
        Exits::One => a.flow(fact, node, 0),
        Exits::Two | Exits::None => *fact,
    }
}

/// The entry stays.
fn keep<A: Analysis>(a: &A, walk: &mut Walk<A::Fact>, node: Node)
    requires proper { is_node node ≡ true }
    requires room { length (nodes_of walk.old.row) < 4 }
    ensures { course_of walk.new ≡ kept (A.Analysis.moves a.now) node (course_of walk.old) }
{
    walk.fact = past(a, &walk.fact, node);
    walk.row.push(node);
}

/// Looks at an entry, with so many others waiting behind it: the nodes that A proposes take its place and are looked at in turn, or it stays.
fn look<A: Analysis>(a: &A, walk: &mut Walk<A::Fact>, node: Node, depth: u8, waiting: usize)
    requires proper { is_node node ≡ true }
    requires depth { depth ≤ 3 }
    requires room { length (nodes_of walk.old.row) + waiting < 4 }
    ensures course { course_of walk.new ≡ looked (A.Analysis.moves a.now) (3 - depth) node waiting (course_of walk.old) }
    ensures room { length (nodes_of walk.new.row) + waiting ≤ 4 }
{
    if depth < DEPTH_LIMIT {
        if let Some(proposal) = a.propose(&walk.fact, node) {
            let mut row = proposal.row.as_slice();
            if walk.row.as_slice().len() + row.len() + waiting <= ROW_LIMIT {
                take_up(walk, node, &proposal);
                while let Some((entry, rest)) = row.split_first() {
                    look(a, walk, *entry, depth + 1, rest.len() + waiting);
                    row = rest;
                }
                return;
            }
        }
    }
    keep(a, walk, node);
}

/// The finished walk from a fact and a node.
fn follow<A: Analysis>(a: &A, fact: &A::Fact, node: Node) -> Walk<A::Fact>
    requires { is_node node ≡ true }
    ensures course { course_of result ≡ course (A.Analysis.moves a.now) fact.now node }
    ensures turns { Turns (A.Analysis.moves a.now) (begins_at fact.now node) (ends_at (course_of result)) }
{
    let mut walk = Walk {
        fact: *fact,
        row: Row::empty(),
        way: 0,
        set: 0,
        replaced: false,
    };
    look(a, &mut walk, node, 0, 0);
    walk
}

/// The last finished node.
fn last<F>(walk: &Walk<F>) -> Node
    ensures { result ≡ last_of Skip (course_of walk.now).done }
{
    walk.row.as_slice().last().copied().unwrap_or(Node::Skip)
}

/// The fact at the row's end for its way, or the flow over a last branch; nowhere for an exit not taken.
fn at_exit<A: Analysis>(a: &A, walk: &Walk<A::Fact>, exit: u8) -> A::Fact
    requires { is_node (last_of Skip (course_of walk.now).done) ≡ true }
    ensures { result ≡ fact_at (A.Analysis.moves a.now) (A.Facts.facts a.now) (course_of walk.now) exit }
{
    let last = last(walk);
    match last.exits() {
        Exits::One => {
            if exit == walk.way {
                walk.fact
            } else {
                a.nowhere()
            }
        }
        Exits::Two => a.flow(&walk.fact, last, exit),
        Exits::None => a.nowhere(),
    }
}

impl<A: Analysis> Deep<A> {
    /// The analysis with its proposals followed, which shows all that is asked of an analysis because it does;
    /// its rows are those that working through them turn by turn comes to.
    pub fn new(inner: A) -> Deep<A>
        ensures inner { result.inner ≡ inner }
        ensures facts { FactsShow (A.Facts.facts inner) }
        ensures moves { MovesShow (A.Facts.facts inner) (deep_moves (A.Analysis.moves inner) (A.Facts.facts inner)) }
        ensures turns { (fact : A.Fact) (node : Node) → Turns (A.Analysis.moves inner) (begins_at fact node) (ends_at (course (A.Analysis.moves inner) fact node)) }
    {
        Deep { inner }
    }
}

// The facts are those of the part, and an impl has to pass its calls on.
impl<A: Facts> Facts for Deep<A> {
    type Fact = A::Fact;

    ghost facts = { λ d. A.Facts.facts d.inner };

    ghost shown = { λ a. A.Facts.shown a.inner };

    fn nowhere(&self) -> A::Fact {
        self.inner.nowhere()
    }

    fn is_nowhere(&self, fact: &A::Fact) -> bool {
        self.inner.is_nowhere(fact)
    }

    fn join(&self, fact: &mut A::Fact, more: &A::Fact) -> bool {
        self.inner.join(fact, more)
    }
}

impl<A: Analysis> Analysis for Deep<A> {
    ghost moves = { λ d. deep_moves (A.Analysis.moves d.inner) (A.Facts.facts d.inner) };

    ghost sound = { λ a. deep_sound (A.Analysis.sound a.inner) };

    fn start(&self) -> A::Fact {
        self.inner.start()
    }

    fn flow(&self, fact: &A::Fact, node: Node, exit: u8) -> A::Fact {
        let walk = follow(&self.inner, fact, node);
        at_exit(&self.inner, &walk, exit)
    }

    fn propose(&self, fact: &A::Fact, node: Node) -> Option<Proposal> {
        let walk = follow(&self.inner, fact, node);
        walk.replaced.then_some(Proposal {
            row: walk.row,
            way: walk.way,
            set: walk.set,
        })
    }
}
