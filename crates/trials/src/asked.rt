// Asks any analysis, at a fact of its own, what it makes of a node.
use analysis::analysis::{Analysis, Facts};
use analysis::proposal::Proposal;
use machine::node::Node;

/// The first node of the row that is proposed, with its way and its set; nothing for what is no node of the machine.
pub fn proposed<A: Analysis>(analysis: &A, fact: &A::Fact, node: Node) -> Option<(Node, u8, u16)> {
    if !node.is_sound() {
        return None;
    }
    let proposal = analysis.propose(fact, node)?;
    let first = proposal.row.as_slice().first()?;
    Some((*first, proposal.way, proposal.set))
}

/// Whether the other node is proposed for the node, with way 0 and this set.
pub fn becomes<A: Analysis>(
    analysis: &A,
    fact: &A::Fact,
    node: Node,
    other: Node,
    set: u16,
) -> bool {
    proposed(analysis, fact, node) == Some((other, 0, set))
}

/// Whether nothing holds where the node is left by the exit.
pub fn is_shut<A: Analysis>(analysis: &A, fact: &A::Fact, node: Node, exit: u8) -> bool {
    if !node.is_sound() {
        return false;
    }
    let next = analysis.flow(fact, node, exit);
    analysis.is_nowhere(&next)
}

/// What holds where the node is left by exit 0; nowhere for what is no node of the machine.
pub fn after<A: Analysis>(analysis: &A, fact: &A::Fact, node: Node) -> A::Fact {
    if !node.is_sound() {
        return analysis.nowhere();
    }
    analysis.flow(fact, node, 0)
}
