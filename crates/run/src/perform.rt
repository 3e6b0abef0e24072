// From the arguments to the report.
use crate::report::{
    Report, tell_expected, tell_refused_run, tell_refused_text, tell_run, tell_unread,
};
use crate::request::{ArgumentError, Request};
use session::refusal::Refusal;
use session::session::Session;
use std::alloc::AllocError;
use std::fs::File;
use std::io::Read;
use std::{env, io};
use text::place::refused_word;
use text::read::TEXT_LIMIT;

/// The most words that a run can write.
const OUTPUT_ROOM: usize = 4096;

/// Why the program ends with status 1.
#[derive(Drop)]
pub enum Failure {
    /// What is wrong has been told.
    Told,
    /// Nothing could be told.
    Untold(io::Error),
}

// `?` asks for an impl of each error; one for all that become an `io::Error` would overlap with `From<T> for T`.
impl From<io::Error> for Failure {
    fn from(error: io::Error) -> Failure {
        Failure::Untold(error)
    }
}

impl From<AllocError> for Failure {
    fn from(error: AllocError) -> Failure {
        Failure::Untold(io::Error::from(error))
    }
}

fn arguments(rt: &HostRuntime) -> Result<Request, ArgumentError> {
    let words = env::args(rt)?;
    Request::from_arguments(rt.alloc(), words)
}

/// The request that the program's arguments make.
fn request(rt: &HostRuntime) -> Result<Request, Failure> {
    arguments(rt).or_else(|error| {
        tell_expected(rt, &error)?;
        Err(Failure::Told)
    })
}

/// Reads a file, but no more of it than shows that it is too long for a text.
fn read_file(rt: &HostRuntime, file: &str, text: &mut Vec<u8>) -> io::Result<()> {
    let opened = File::open(rt, file)?;
    opened.take(TEXT_LIMIT as u64 + 1).read_to_end(text)?;
    Ok(())
}

fn read_text(rt: &HostRuntime, file: &str, text: &mut Vec<u8>) -> Result<(), Failure> {
    read_file(rt, file, text).or_else(|error| {
        tell_unread(rt, file, &error)?;
        Err(Failure::Told)
    })
}

/// Reads the requested program, runs it and tells what it did.
pub(crate) fn perform(rt: &HostRuntime) -> Result<(), Failure> {
    let request = request(rt)?;
    let mut text = Vec::new(rt.alloc());
    read_text(rt, request.file.as_str(), &mut text)?;
    let mut session = Session::new();
    if let Err(refusal) = session.read(text.as_slice()) {
        match refusal {
            Refusal::Text(refusal) => {
                let word = refused_word(text.as_slice(), refusal.line, refusal.word);
                tell_refused_text(rt, refusal, word)?;
            }
            other => tell_refused_run(rt, other)?,
        }
        return Err(Failure::Told);
    }
    run(rt, session, &request)
}

/// Runs the session's program on the cells and inputs, and tells what it did.
fn run(rt: &HostRuntime, session: Session, request: &Request) -> Result<(), Failure> {
    let inputs = request.inputs.as_slice();
    let mut cells = request.cells;
    let mut output = vec![in rt.alloc(); 0; OUTPUT_ROOM]?;
    let outcome = session
        .run(&mut cells, inputs, output.as_mut_slice(), request.budget)
        .or_else(|refusal| {
            tell_refused_run(rt, refusal)?;
            Err(Failure::Told)
        })?;
    let nodes = session.close();
    let report = Report {
        nodes,
        outcome,
        inputs,
        output: output.as_slice(),
        cells_before: &request.cells,
        cells_after: &cells,
    };
    tell_run(rt, report)?;
    Ok(())
}
