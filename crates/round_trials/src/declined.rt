// Rounds and settling that are declined, and what they leave alone.
use crate::doubling::Doubling;
use crate::programs::{NO_NODE, UNWRITTEN, has, skips};
use machine::node::Node;
use rounds::change::{Change, RoundRefusal};
use rounds::round::round;
use settling::settle::settle;
use std::process::Abort;
use std::test::Fail;

/// A round on four skips, which must be declined and leave the program and the list as they were.
fn declines(
    rt: &impl Abort,
    table: &mut [bool],
    changes: &mut [Change],
) -> Result<RoundRefusal, Fail> {
    let mut program = skips(4)?;
    let Err(refusal) = round(&Doubling, &mut program, table, changes) else {
        return Err(Fail::new("the round was not declined"));
    };
    assert_eq!(rt; program.count(), 4);
    assert!(rt; has(&program, 0, Node::Skip, 1) && has(&program, 1, Node::Skip, 2));
    assert!(rt; has(&program, 2, Node::Skip, 3) && has(&program, 3, Node::Halt, 0));
    for change in changes.iter() {
        assert_eq!(rt; change.at, NO_NODE);
    }
    Ok(refusal)
}

#[test]
fn short_table(rt: HostRuntime) -> Result<(), Fail> {
    let mut table = [true, false, true];
    let refusal = declines(&rt, &mut table, &mut [UNWRITTEN; 4])?;
    assert_eq!(rt; refusal, RoundRefusal::ShortTable { nodes: 4 });
    let both_short = declines(&rt, &mut table, &mut [UNWRITTEN; 3])?;
    assert_eq!(rt; both_short, RoundRefusal::ShortTable { nodes: 4 });
    assert_eq!(rt; table, [true, false, true]);
    Ok(())
}

#[test]
fn short_list(rt: HostRuntime) -> Result<(), Fail> {
    let mut table = [true, false, true, false];
    let refusal = declines(&rt, &mut table, &mut [UNWRITTEN; 3])?;
    assert_eq!(rt; refusal, RoundRefusal::ShortList { nodes: 4 });
    assert_eq!(rt; table, [true, false, true, false]);
    Ok(())
}

/// The visits of settling four skips, or the nodes where that is declined.
fn settle_skips(table: &mut [bool]) -> Result<Result<u32, usize>, Fail> {
    let program = skips(4)?;
    Ok(settle(&Doubling, &program, table).map_err(|short| short.nodes))
}

#[test]
fn settling(rt: HostRuntime) -> Result<(), Fail> {
    let mut short = [true, false, true];
    assert_eq!(rt; settle_skips(&mut short)?, Err(4));
    assert_eq!(rt; short, [true, false, true]);
    let mut long = [false, false, false, false, false, true];
    assert_eq!(rt; settle_skips(&mut long)?, Ok(4));
    assert_eq!(rt; long, [true, true, true, true, false, true]);
    Ok(())
}

#[test]
fn entries_past_the_nodes(rt: HostRuntime) -> Result<(), Fail> {
    let mut program = skips(4)?;
    let mut table = [false, false, false, false, true, false];
    let mut changes = [UNWRITTEN; 6];
    let counts = round(&Doubling, &mut program, &mut table, &mut changes)?;
    assert_eq!(rt; counts.made, 3);
    assert_eq!(rt; table, [true, true, true, true, true, false]);
    assert!(rt; changes[0].at == 0 && changes[1].at == 1 && changes[2].at == 2);
    assert!(rt; changes[3].at == NO_NODE && changes[4].at == NO_NODE && changes[5].at == NO_NODE);
    Ok(())
}
