// A program with little room left, and rows of two.
use crate::doubling::{Doubling, SET};
use crate::programs::{NO_NODE, UNWRITTEN, has, skips};
use machine::node::{NODE_LIMIT, Node};
use rounds::round::round;
use std::test::Fail;

#[test]
fn full_table(rt: HostRuntime) -> Result<(), Fail> {
    let mut program = skips(NODE_LIMIT)?;
    let mut table = [false; NODE_LIMIT];
    let mut changes = [UNWRITTEN; NODE_LIMIT];
    let counts = round(&Doubling, &mut program, &mut table, &mut changes)?;
    assert_eq!(rt; counts.made, 0);
    assert_eq!(rt; counts.short, 199);
    assert_eq!(rt; counts.visits, 200);
    assert_eq!(rt; changes[0].at, NO_NODE);
    assert!(rt; has(&program, 0, Node::Skip, 1));
    Ok(())
}

#[test]
fn room_for_one(rt: HostRuntime) -> Result<(), Fail> {
    let mut program = skips(NODE_LIMIT - 1)?;
    let mut table = [false; NODE_LIMIT];
    let mut changes = [UNWRITTEN; NODE_LIMIT];
    let counts = round(&Doubling, &mut program, &mut table, &mut changes)?;
    assert_eq!(rt; counts.made, 1);
    assert_eq!(rt; counts.short, 197);
    assert!(rt; changes[0].at == 0 && changes[0].len == 2 && changes[0].set == SET);
    assert_eq!(rt; changes[1].at, NO_NODE);
    assert_eq!(rt; program.count(), 200);
    assert!(rt; has(&program, 0, Node::Skip, 199));
    assert!(rt; has(&program, 199, Node::Skip, 1));
    assert!(rt; has(&program, 1, Node::Skip, 2));
    Ok(())
}
