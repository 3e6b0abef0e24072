// A branch that is decided, under several piles.
use crate::driver::{round_deep, round_paired, round_standard, round_with, visits_of};
use crate::programs::{NOWHERE, UNWRITTEN, branch, end, has, mov, program, puts, to};
use analyses::branches::Branches;
use analyses::constants::Constants;
use machine::node::{Node, Operand};
use machine::program::Program;
use rounds::change::Counts;
use sample::reached::Reached;
use std::test::Fail;

const BRANCH: Node = Node::Br {
    on: Operand::Reg(0),
};

const BRANCH_ON_FOUR: Node = Node::Br {
    on: Operand::Num(4),
};

/// Constants and branches, or constants alone.
const BOTH: u16 = 2 + 16;

const CONSTANTS: u16 = 2;

fn four_nodes() -> Result<Program, Fail> {
    program(&[
        to(mov(0, Operand::Num(4)), 1),
        branch(Operand::Reg(0), 2, 3),
        end(Node::Halt),
        end(Node::Fail { fault: 9 }),
    ])
}

fn counts_are(counts: Counts, made: usize, visits: u32) -> bool {
    let short = 0;
    counts
        == Counts {
            made,
            short,
            visits,
        }
}

#[test]
fn under_the_standard_pile(rt: HostRuntime) -> Result<(), Fail> {
    let mut program = four_nodes()?;
    let mut table = [NOWHERE; 4];
    let mut changes = [UNWRITTEN; 4];
    let counts = round_standard(&mut program, &mut table, &mut changes)?;
    assert!(rt; counts_are(counts, 1, 3));
    assert!(rt; puts(&changes[0], 1, BRANCH, Node::Skip, 0, BOTH));
    assert!(rt; has(&program, 1, Node::Skip, 2));
    assert!(rt; table[2].first.is_some() && table[3].first.is_none());
    Ok(())
}

#[test]
fn under_the_sample(rt: HostRuntime) -> Result<(), Fail> {
    let mut program = four_nodes()?;
    let mut changes = [UNWRITTEN; 4];
    let counts = round_with(rt.alloc(), &Reached, &mut program, &mut changes)??;
    assert!(rt; counts_are(counts, 0, 4));
    assert!(rt; has(&program, 1, BRANCH, 2));
    Ok(())
}

#[test]
fn under_constants(rt: HostRuntime) -> Result<(), Fail> {
    let mut program = four_nodes()?;
    let mut changes = [UNWRITTEN; 4];
    let counts = round_with(rt.alloc(), &Constants, &mut program, &mut changes)??;
    assert!(rt; counts_are(counts, 1, 4));
    assert!(rt; puts(&changes[0], 1, BRANCH, BRANCH_ON_FOUR, 0, CONSTANTS));
    assert!(rt; has(&program, 1, BRANCH_ON_FOUR, 2));
    Ok(())
}

#[test]
fn visits_by_pile(rt: HostRuntime) -> Result<(), Fail> {
    let program = four_nodes()?;
    assert_eq!(rt; visits_of(rt.alloc(), &Reached, &program)?, 4);
    assert_eq!(rt; visits_of(rt.alloc(), &Constants, &program)?, 4);
    Ok(())
}

/// A pair does not see its own proposals: the number comes in one round, and the branch is decided in the next.
#[test]
fn under_a_pair(rt: HostRuntime) -> Result<(), Fail> {
    let mut program = four_nodes()?;
    let mut changes = [UNWRITTEN; 4];
    let first = round_paired(rt.alloc(), Constants, Branches, &mut program, &mut changes)??;
    assert!(rt; counts_are(first, 1, 4));
    assert!(rt; has(&program, 1, BRANCH_ON_FOUR, 2));
    let second = round_paired(rt.alloc(), Constants, Branches, &mut program, &mut changes)??;
    assert!(rt; counts_are(second, 1, 3));
    assert!(rt; has(&program, 1, Node::Skip, 2));
    Ok(())
}

#[test]
fn under_a_deep_pair(rt: HostRuntime) -> Result<(), Fail> {
    let mut program = four_nodes()?;
    let mut changes = [UNWRITTEN; 4];
    let counts = round_deep(rt.alloc(), Constants, Branches, &mut program, &mut changes)??;
    assert!(rt; counts_are(counts, 1, 3));
    assert!(rt; puts(&changes[0], 1, BRANCH, Node::Skip, 0, BOTH));
    Ok(())
}
