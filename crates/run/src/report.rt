// What is told on standard output.
use crate::request::ArgumentError;
use machine::outcome::{Outcome, RunRefusal};
use machine::program::run::{BUDGET_LIMIT, CELL_COUNT};
use session::refusal::Refusal;
use std::io;
use text::refusal::TextRefusal;

const USAGE: &str = "expected: run FILE [budget=N] [cK=WORD ...] [WORD ...]";

/// What a run did.
#[derive(Drop)]
pub struct Report<'a> {
    pub nodes: usize,
    pub outcome: Outcome,
    pub inputs: &'a [u32],
    pub output: &'a [u32],
    pub cells_before: &'a [u32],
    pub cells_after: &'a [u32],
}

fn tell_words(rt: &HostRuntime, words: &[u32], count: usize) -> io::Result<()> {
    for word in words.iter().take(count) {
        println!(rt; "{word}")?;
    }
    Ok(())
}

fn tell_cells(rt: &HostRuntime, before: &[u32], after: &[u32]) -> io::Result<()> {
    for (cell, (old, new)) in before.iter().zip(after.iter()).enumerate() {
        if *old != *new {
            println!(rt; "c{cell} {old} -> {new}")?;
        }
    }
    Ok(())
}

/// Tells what a run did: how it ended, what it read and wrote, and each cell that it changed.
pub(crate) fn tell_run(rt: &HostRuntime, report: Report) -> io::Result<()> {
    let nodes = report.nodes;
    let stop = report.outcome.stop;
    let steps = report.outcome.steps;
    let read = report.outcome.read;
    let inputs = report.inputs.len();
    let written = report.outcome.written;
    println!(rt; "nodes {nodes}")?;
    println!(rt; "ended {stop} after {steps} steps")?;
    println!(rt; "read {read} of {inputs} inputs")?;
    println!(rt; "wrote {written} words")?;
    tell_words(rt, report.output, written)?;
    tell_cells(rt, report.cells_before, report.cells_after)
}

/// Tells why a text is refused, and the word that is wrong.
pub(crate) fn tell_refused_text(
    rt: &HostRuntime,
    refusal: TextRefusal,
    word: &[u8],
) -> io::Result<()> {
    if word.is_empty() {
        return println!(rt; "{refusal}");
    }
    let word = String::from_utf8_lossy(rt.alloc(), word)?;
    println!(rt; "{refusal}: {word}")
}

// Each limit is told in words of its own, which other callers have no use for.
/// Tells why a call other than the reading of a text is refused.
pub(crate) fn tell_refused_run(rt: &HostRuntime, refusal: Refusal) -> io::Result<()> {
    let number = refusal.number();
    match refusal {
        Refusal::Run(RunRefusal::WrongCellCount) => {
            println!(rt; "refused {number} cells exactly {}", CELL_COUNT)
        }
        Refusal::Run(RunRefusal::BudgetTooLarge) => {
            println!(rt; "refused {number} budget at most {}", BUDGET_LIMIT)
        }
        _ => println!(rt; "refused {number}"),
    }
}

/// Tells what was expected of the arguments, and which is wrong.
pub(crate) fn tell_expected(rt: &HostRuntime, error: &ArgumentError) -> io::Result<()> {
    rt.println(USAGE)?;
    match error {
        ArgumentError::NoFile => println!(rt; "no file is named"),
        ArgumentError::Wrong(word) => println!(rt; "wrong argument: {word}"),
        ArgumentError::Untaken(error) => println!(rt; "cannot take the arguments: {error}"),
    }
}

/// Tells that a file cannot be read.
pub(crate) fn tell_unread(rt: &HostRuntime, file: &str, error: &io::Error) -> io::Result<()> {
    println!(rt; "cannot read {file}: {error}")
}
