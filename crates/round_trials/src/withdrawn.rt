// A guess that is withdrawn: a branch looks decided until the loop behind it comes round.
use crate::driver::round_standard;
use crate::programs::{NOWHERE, UNWRITTEN, branch, end, has, mov, program, puts, to};
use machine::node::{BinaryOp, Node, NodeNumber, Operand};
use machine::outcome::{Ending, RunRefusal, Stop};
use machine::program::Program;
use machine::program::run::CELL_COUNT;
use std::test::Fail;

const PRICE: u8 = 1;

/// What is left to pay: at first a copy of the price.
const DUE: u8 = 2;

/// Whether coins came before.
const PAID: u8 = 3;

const COINS: u8 = 4;

const WORTH: u8 = 5;

const IS_PAID: Node = Node::Br {
    on: Operand::Reg(PAID),
};

/// The sets of constants and of copies alone.
const CONSTANTS: u16 = 2;

const COPIES: u16 = 4;

fn binary(op: BinaryOp, to: u8, left: u8, right: Operand) -> Node {
    Node::Binary {
        op,
        to,
        left: Operand::Reg(left),
        right,
    }
}

fn show(register: u8) -> Node {
    Node::Out {
        from: Operand::Reg(register),
    }
}

fn keep(register: u8) -> Node {
    Node::St {
        cell: 0,
        from: Operand::Reg(register),
    }
}

fn coins_worth(worth: Operand) -> Node {
    binary(BinaryOp::Mul, COINS, COINS, worth)
}

/// Shows the price, takes coins of 5 until none come, and shows what is left to pay, which is kept in c0 all the while.
/// Node 10 goes back to `again` while coins come.
fn machine(again: NodeNumber) -> Result<Program, Fail> {
    program(&[
        to(Node::In { to: PRICE }, 1),
        to(mov(DUE, Operand::Reg(PRICE)), 2),
        to(show(DUE), 3),
        to(mov(WORTH, Operand::Num(5)), 4),
        branch(Operand::Reg(PAID), 5, 6),
        to(binary(BinaryOp::Sub, DUE, DUE, Operand::Reg(COINS)), 6),
        to(keep(DUE), 7),
        to(Node::In { to: COINS }, 8),
        to(coins_worth(Operand::Reg(WORTH)), 9),
        to(mov(PAID, Operand::Num(1)), 10),
        branch(Operand::Reg(COINS), again, 11),
        to(show(DUE), 12),
        end(Node::Halt),
    ])
}

/// What a run tells but for its steps, with what it leaves in the cells and the output.
#[derive(Clone, Copy, PartialEq, Eq)]
struct Ran {
    stop: Stop,
    written: usize,
    read: usize,
    words: [u32; 4],
    cells: [u32; CELL_COUNT],
}

/// Runs a program on these inputs, with this word in every cell.
fn run_on(program: &Program, inputs: &[u32], word: u32) -> Result<Ran, RunRefusal> {
    let mut cells = [word; CELL_COUNT];
    let mut words = [0; 4];
    let outcome = program.run(&mut cells, inputs, &mut words, 1000)?;
    Ok(Ran {
        stop: outcome.stop,
        written: outcome.written,
        read: outcome.read,
        words,
        cells,
    })
}

/// While the loop has not come round, `br` looks decided and what is due looks like the price; neither is concluded in the end.
#[test]
fn guess_is_withdrawn(rt: HostRuntime) -> Result<(), Fail> {
    let mut program = machine(4)?;
    let mut table = [NOWHERE; 13];
    let mut changes = [UNWRITTEN; 13];
    let counts = round_standard(&mut program, &mut table, &mut changes)?;
    assert_eq!(rt; counts.made, 2);
    assert_eq!(rt; counts.visits, 21);
    assert!(rt; has(&program, 4, IS_PAID, 5));
    assert!(rt; has(&program, 6, keep(DUE), 7));
    assert!(rt; has(&program, 11, show(DUE), 12));
    assert_eq!(rt; table[4].first.and_then(|values| values[3]), None);
    assert_eq!(rt; table[6].second.first.and_then(|sources| sources[2]), None);
    assert!(rt; puts(&changes[0], 2, show(DUE), show(PRICE), 0, COPIES));
    assert!(rt;
        puts(
            &changes[1],
            8,
            coins_worth(Operand::Reg(WORTH)),
            coins_worth(Operand::Num(5)),
            0,
            CONSTANTS,
        )
    );
    Ok(())
}

/// Where node 10 does not go back, both are concluded.
#[test]
fn guess_is_right(rt: HostRuntime) -> Result<(), Fail> {
    let mut program = machine(11)?;
    let mut table = [NOWHERE; 13];
    let mut changes = [UNWRITTEN; 13];
    let counts = round_standard(&mut program, &mut table, &mut changes)?;
    assert_eq!(rt; counts.made, 5);
    assert_eq!(rt; counts.visits, 12);
    assert!(rt; has(&program, 4, Node::Skip, 6));
    assert!(rt; has(&program, 6, keep(PRICE), 7));
    assert!(rt; has(&program, 11, show(PRICE), 12));
    Ok(())
}

/// Whether both programs run alike on these inputs.
fn alike(before: &Program, after: &Program, inputs: &[u32]) -> Result<bool, RunRefusal> {
    Ok(run_on(before, inputs, 7)? == run_on(after, inputs, 7)?)
}

#[test]
fn runs_as_before(rt: HostRuntime) -> Result<(), Fail> {
    let before = machine(4)?;
    let mut after = before;
    round_standard(&mut after, &mut [NOWHERE; 13], &mut [UNWRITTEN; 13])?;
    assert!(rt; alike(&before, &after, &[20, 2, 1, 0])?);
    assert!(rt; alike(&before, &after, &[20, 0])?);
    assert!(rt; alike(&before, &after, &[3, 1, 1])?);
    assert!(rt; alike(&before, &after, &[])?);
    let paid = run_on(&after, &[20, 2, 1, 0], 7)?;
    assert_eq!(rt; paid.stop, Stop::Ended(Ending::Halted));
    assert!(rt; paid.written == 2 && paid.words[0] == 20 && paid.words[1] == 5);
    assert!(rt; paid.read == 4 && paid.cells[0] == 5 && paid.cells[1] == 7);
    Ok(())
}
