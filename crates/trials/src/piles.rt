// The standard pile, asked for facts and proposals.
use crate::asked::{is_shut, proposed};
use analyses::standard::standard;
use analysis::analysis::Analysis;
use machine::node::{Node, Operand};
use std::test::Fail;

/// The first node of a proposal at the start, with its way and its set.
fn first<P: Analysis>(pile: &P, node: Node) -> Option<(Node, u8, u16)> {
    let start = pile.start();
    proposed(pile, &start, node)
}

/// Whether an exit cannot be taken at the start.
fn shut<P: Analysis>(pile: &P, node: Node, exit: u8) -> bool {
    let start = pile.start();
    is_shut(pile, &start, node, exit)
}

#[test]
fn standard_pile(rt: HostRuntime) -> Result<(), Fail> {
    let pile = standard();
    let branch = Node::Br {
        on: Operand::Reg(0),
    };
    let Some((node, way, set)) = first(&pile, branch) else {
        return Err(Fail::new("nothing is proposed for the branch"));
    };
    assert!(rt; node == Node::Skip);
    assert_eq!(rt; way, 1);
    assert_eq!(rt; set, 2 + 16);
    assert!(rt; shut(&pile, branch, 0));
    assert!(rt; !shut(&pile, branch, 1));
    assert!(rt; first(&pile, Node::Halt).is_none());
    Ok(())
}
