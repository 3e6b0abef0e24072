// The sample beside any other analysis.
ghost use Rattle.std.specs.Prelude.{cond, ◌≡◌};
ghost use Rattle.machine.specs.WellFormed.{is_node};
ghost use Rattle.analysis.specs.Analyses.{meant, absent};

use crate::reached::Reached;
use analysis::analysis::Analysis;
use analysis::pair::Pair;
use analysis::pile::proposal_at_start;
use analysis::proposal::Proposal;
use machine::node::Node;

/// What both propose for a node where a run starts: just what the other does alone, since the sample proposes nothing.
pub fn at_start<A: Analysis + Drop>(other: A, node: Node) -> Option<Proposal>
    ensures { meant result ≡ cond (is_node node) ((A.Analysis.moves other).proposal (A.Analysis.moves other).start node) absent }
{
    let both = Pair::new(Reached, other);
    proposal_at_start(&both, node)
}

/// The sample beside itself proposes nothing.
pub fn beside_itself() -> Option<Proposal>
    ensures { meant result ≡ absent }
{
    at_start(Reached, Node::Skip)
}
