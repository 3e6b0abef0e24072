// Facts that say only whether a node is reached: nowhere allows no state, and reached allows every state.
ghost use Rattle.std.specs.Prelude.{◌≡◌};
ghost use Rattle.analysis.specs.Analyses.{meant};
ghost use Rattle.analyses.specs.Reach.{reach_facts, one_node};

use analysis::proposal::Proposal;
use machine::node::Node;

#[derive(Clone, Copy, PartialEq, Eq, Debug)]
pub struct Reach {
    pub reached: bool,
}

impl Reach {
    pub const NOWHERE: Reach = Reach { reached: false };

    pub const REACHED: Reach = Reach { reached: true };

    /// Joins `more` into the fact, and tells whether the fact rose.
    pub(crate) fn join(&mut self, more: &Reach) -> bool
        ensures after { self.new ≡ reach_facts.joined self.old more.now }
        ensures rose { result ≡ reach_facts.rises self.old more.now }
    {
        let rose = !self.reached && more.reached;
        self.reached = self.reached || more.reached;
        rose
    }

    /// Proposes one node; nothing at nowhere.
    pub(crate) fn propose_one(self, node: Node, way: u8, set: u16) -> Option<Proposal>
        ensures { meant result ≡ one_node self node way set }
    {
        self.reached.then_some(Proposal::one(node, way, set))
    }
}
