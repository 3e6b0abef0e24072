// The interface of an analysis.
ghost use Rattle.std.specs.Prelude.{◌≡◌, true, ◌==◌};
ghost use Rattle.machine.specs.WellFormed.{is_node};
ghost use Rattle.analysis.specs.Analyses.{MovesOf, MovesShow, StartShows, FlowShows, ProposalShows, meant};
ghost use Rattle.analysis.specs.Facts.{FactsOf, FactsShow};

use crate::proposal::Proposal;
use machine::node::Node;

/// Facts: each means a set of points, has a rank, and can be joined with another.
pub trait Facts {
    type Fact: Copy;

    ghost facts: { Self → FactsOf Self.Fact };

    /// The fact that allows nothing.
    fn nowhere(&self) -> Self::Fact
        ensures { result ≡ (facts self.now).nowhere };

    fn is_nowhere(&self, fact: &Self::Fact) -> bool
        ensures { result ≡ ((facts self.now).rank fact.now == 0) };

    /// Joins `more` into `fact`, and tells whether `fact` rose.
    fn join(&self, fact: &mut Self::Fact, more: &Self::Fact) -> bool
        ensures after { fact.new ≡ (facts self.now).joined fact.old more.now }
        ensures rose { result ≡ (facts self.now).rises fact.old more.now };

    ghost shown: { (a : Self) → FactsShow (facts a) };
}

/// Facts about states, with what holds where a run starts, what flows over a node, and what may stand in its place.
pub trait Analysis: Facts {
    ghost moves: { Self → MovesOf Self.Fact };

    fn start(&self) -> Self::Fact
        ensures exact { result ≡ (moves self.now).start }
        ensures shows { StartShows (Self.Facts.facts self.now) result };

    // Any number may be asked for: an enum of the two exits would ask more of a caller.
    /// What holds where the node is left by the exit.
    fn flow(&self, fact: &Self::Fact, node: Node, exit: u8) -> Self::Fact
        requires { is_node node ≡ true }
        ensures exact { result ≡ (moves self.now).flow fact.now node exit }
        ensures shows { FlowShows (Self.Facts.facts self.now) fact.now node exit result };

    /// What may stand for the node where the fact holds, if anything is proposed.
    fn propose(&self, fact: &Self::Fact, node: Node) -> Option<Proposal>
        requires { is_node node ≡ true }
        ensures exact { meant result ≡ (moves self.now).proposal fact.now node }
        ensures shows { ProposalShows (Self.Facts.facts self.now) fact.now node (meant result) };

    ghost sound: { (a : Self) → MovesShow (Self.Facts.facts a) (moves a) };
}
