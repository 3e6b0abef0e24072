// Runs of programs under limits.
mod table;

use crate::runs::table::RUNS;
use machine::outcome::Outcome;
use session::session::Session;
use std::io;

/// A run of a program on so many cells, with room for so many words.
#[derive(Clone, Copy)]
pub struct Run {
    pub name: &'static str,
    pub text: &'static [u8],
    pub cells: usize,
    pub inputs: &'static [u32],
    pub room: usize,
    pub budget: u32,
}

/// What every cell holds before a run.
const CELL: u32 = 5;

/// What the output buffer holds before a run.
const UNWRITTEN: u32 = 9;

// A line for each run; the program `run` tells the same in sentences of its own.
fn show_outcome(rt: &impl Print, name: &str, outcome: Outcome) -> io::Result<()> {
    let stop = outcome.stop;
    let steps = outcome.steps;
    let read = outcome.read;
    let written = outcome.written;
    print!(rt; "{name}: {stop} after {steps} steps, read {read}, written {written}")
}

/// Shows the output buffer, and the cells that changed.
fn show_buffers(rt: &impl Print, cells: &[u32], output: &[u32]) -> io::Result<()> {
    print!(rt; ", output")?;
    for word in output {
        print!(rt; " {word}")?;
    }
    for (i, word) in cells.iter().enumerate() {
        if *word != CELL {
            print!(rt; ", c{i} = {word}")?;
        }
    }
    println!(rt; "")
}

fn try_run(rt: &(impl Print + AllocGlobal), session: &mut Session, run: &Run) -> io::Result<()> {
    let name = run.name;
    if session.read(run.text).is_err() {
        return println!(rt; "{name}: no program");
    }
    let mut cells = vec![in rt.alloc(); CELL; run.cells]?;
    let mut output = vec![in rt.alloc(); UNWRITTEN; run.room]?;
    match session.run(
        cells.as_mut_slice(),
        run.inputs,
        output.as_mut_slice(),
        run.budget,
    ) {
        Ok(outcome) => show_outcome(rt, name, outcome)?,
        Err(refusal) => {
            let number = refusal.number();
            print!(rt; "{name}: refused {number}")?;
        }
    }
    show_buffers(rt, cells.as_slice(), output.as_slice())
}

pub(crate) fn try_runs(rt: &(impl Print + AllocGlobal), session: &mut Session) -> io::Result<()> {
    for run in &RUNS {
        try_run(rt, session, run)?;
    }
    Ok(())
}
