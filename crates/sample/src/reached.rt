// How to write an analysis.
//
// 1. Say what a fact is: a type that can be copied. Here it is a `bool`: no run comes to the node, or one may.
// 2. Say in specs/ what a fact means (which states it allows), its rank, the fact nowhere, and how facts join: `reached_facts`.
//    The rank is 0 where nothing is allowed, and a join that changes a fact raises it, up to the height.
// 3. Say there what holds where a run starts, what flows over a node, and what is proposed for it: `reached_moves`.
// 4. Write a unit struct with the impls of `Facts` and `Analysis`, whose functions reply as the definitions say.
//    Each impl gives its law as a ghost member, `shown` or `sound`. Here a search finds both; else the law cites a lemma of specs/.
// 5. A proposal needs a row that does what the node does in each state that the fact allows. Here nothing is proposed.
ghost use Rattle.sample.specs.Reached.{reached_facts, reached_moves};
ghost use Rattle.std.proofs.Common.{rules};

use analysis::analysis::{Analysis, Facts};
use analysis::proposal::Proposal;
use machine::node::Node;

#[derive(Clone, Copy)]
pub struct Reached;

// An impl is for one type: other analyses with such facts have one of their own.
impl Facts for Reached {
    type Fact = bool;

    ghost facts = { λ _. reached_facts };

    ghost shown = { Prim.search rules };

    fn nowhere(&self) -> bool {
        false
    }

    fn is_nowhere(&self, fact: &bool) -> bool {
        !*fact
    }

    fn join(&self, fact: &mut bool, more: &bool) -> bool {
        let rose = !*fact && *more;
        *fact = *fact || *more;
        rose
    }
}

impl Analysis for Reached {
    ghost moves = { λ _. reached_moves };

    ghost sound = { Prim.search rules };

    fn start(&self) -> bool {
        true
    }

    fn flow(&self, fact: &bool, _node: Node, _exit: u8) -> bool {
        *fact
    }

    fn propose(&self, _fact: &bool, _node: Node) -> Option<Proposal> {
        None
    }
}
