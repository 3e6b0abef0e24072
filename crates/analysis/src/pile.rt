// Piles: any analysis, used through its traits alone.
ghost use Rattle.std.specs.Prelude.{◌≡◌, if◌then◌else◌};
ghost use Rattle.machine.specs.WellFormed.{is_node};
ghost use Rattle.analysis.specs.Analyses.{MovesShow, absent, meant};
ghost use Rattle.analysis.specs.Facts.{FactsShow};

use crate::analysis::{Analysis, Facts};
use crate::proposal::Proposal;
use machine::node::Node;

// The body is empty, as that of every other function that is there for its contract alone.
/// Does nothing: its contract is that a pile, whatever it is, shows all that is asked of an analysis.
pub fn shows_all<P: Analysis>(pile: &P)
    ensures facts { FactsShow (P.Facts.facts pile.now) }
    ensures moves { MovesShow (P.Facts.facts pile.now) (P.Analysis.moves pile.now) }
{
    let _ = pile;
}

/// What a pile proposes where a run starts; nothing for what is no node of the machine.
pub fn proposal_at_start<P: Analysis>(pile: &P, node: Node) -> Option<Proposal>
    ensures { meant result ≡ (if is_node node then (P.Analysis.moves pile.now).proposal (P.Analysis.moves pile.now).start node else absent) }
{
    if !node.is_sound() {
        return None;
    }
    let start = pile.start();
    pile.propose(&start, node)
}
