// Two analyses side by side.
ghost use Rattle.std.specs.Prelude.{◌≡◌};
ghost use Rattle.analysis.specs.Analyses.{MovesShow};
ghost use Rattle.analysis.specs.Facts.{FactsShow};
ghost use Rattle.analysis.specs.Pairs.{pair_facts, pair_moves};
ghost use Rattle.analysis.specs.PairLaws.{pair_shown, pair_sound};

use crate::analysis::{Analysis, Facts};
use crate::proposal::Proposal;
use machine::node::Node;

#[derive(Drop)]
pub struct Pair<A, B> {
    pub first: A,
    pub second: B,
}

/// A fact of each part; it is nowhere if one of them is.
#[derive(Clone, Copy)]
pub struct PairFact<F, G> {
    pub first: F,
    pub second: G,
}

impl<A: Analysis, B: Analysis> Pair<A, B> {
    /// Two analyses as one, which shows all that is asked of an analysis because they do.
    pub fn new(first: A, second: B) -> Pair<A, B>
        ensures parts { (result.first ≡ first) × (result.second ≡ second) }
        ensures facts { FactsShow (pair_facts (A.Facts.facts first) (B.Facts.facts second)) }
        ensures moves { MovesShow (pair_facts (A.Facts.facts first) (B.Facts.facts second)) (pair_moves (A.Facts.facts first) (B.Facts.facts second) (A.Analysis.moves first) (B.Analysis.moves second)) }
    {
        Pair { first, second }
    }
}

// Each method asks both parts: an impl for a type made of others has to pass its calls on.
impl<A: Facts, B: Facts> Facts for Pair<A, B> {
    type Fact = PairFact<A::Fact, B::Fact>;

    ghost facts = { λ p. pair_facts (A.Facts.facts p.first) (B.Facts.facts p.second) };

    ghost shown = { λ a. pair_shown (A.Facts.shown a.first) (B.Facts.shown a.second) };

    fn nowhere(&self) -> PairFact<A::Fact, B::Fact> {
        PairFact {
            first: self.first.nowhere(),
            second: self.second.nowhere(),
        }
    }

    fn is_nowhere(&self, fact: &PairFact<A::Fact, B::Fact>) -> bool {
        self.first.is_nowhere(&fact.first) || self.second.is_nowhere(&fact.second)
    }

    fn join(
        &self,
        fact: &mut PairFact<A::Fact, B::Fact>,
        more: &PairFact<A::Fact, B::Fact>,
    ) -> bool {
        if self.is_nowhere(more) {
            return false;
        }
        if self.is_nowhere(fact) {
            *fact = *more;
            return true;
        }
        let first_rose = self.first.join(&mut fact.first, &more.first);
        let second_rose = self.second.join(&mut fact.second, &more.second);
        first_rose || second_rose
    }
}

impl<A: Analysis, B: Analysis> Analysis for Pair<A, B> {
    ghost moves = { λ p. pair_moves (A.Facts.facts p.first) (B.Facts.facts p.second) (A.Analysis.moves p.first) (B.Analysis.moves p.second) };

    ghost sound = { λ a. pair_sound (A.Facts.shown a.first) (B.Facts.shown a.second) (A.Analysis.sound a.first) (B.Analysis.sound a.second) };

    fn start(&self) -> PairFact<A::Fact, B::Fact> {
        PairFact {
            first: self.first.start(),
            second: self.second.start(),
        }
    }

    fn flow(
        &self,
        fact: &PairFact<A::Fact, B::Fact>,
        node: Node,
        exit: u8,
    ) -> PairFact<A::Fact, B::Fact> {
        let next = PairFact {
            first: self.first.flow(&fact.first, node, exit),
            second: self.second.flow(&fact.second, node, exit),
        };
        if self.is_nowhere(&next) {
            self.nowhere()
        } else {
            next
        }
    }

    fn propose(&self, fact: &PairFact<A::Fact, B::Fact>, node: Node) -> Option<Proposal> {
        self.first
            .propose(&fact.first, node)
            .or_else(|| self.second.propose(&fact.second, node))
    }
}
