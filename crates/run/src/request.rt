// What the program is asked to run, and on what.
ghost use Rattle.std.specs.Prelude.{◌≡◌, [], replicate, OnOk};
ghost use Rattle.machine.specs.Limits.{cell_count, budget_limit};
ghost use Rattle.run.specs.Put.{InRange, Put};

use crate::arguments::Argument;
use crate::spelling::parse_argument;
use machine::program::run::{BUDGET_LIMIT, CELL_COUNT};
use std::alloc::{AllocError, Global};
use std::env::Args;
use std::io;

/// A file, and what its program is run on.
#[derive(Drop)]
pub struct Request {
    pub file: String,
    pub budget: u32,
    pub cells: [u32; CELL_COUNT],
    pub inputs: Vec<u32>,
}

/// Why arguments are not a request.
#[derive(Drop)]
pub enum ArgumentError {
    /// No file is named.
    NoFile,
    /// An argument that is spelled wrong.
    Wrong(String),
    /// The arguments are not text, or find no memory.
    Untaken(io::Error),
}

// Two impls, as for `Failure`, and for the same reason.
impl From<AllocError> for ArgumentError {
    fn from(error: AllocError) -> ArgumentError {
        ArgumentError::Untaken(io::Error::from(error))
    }
}

impl From<io::Error> for ArgumentError {
    fn from(error: io::Error) -> ArgumentError {
        ArgumentError::Untaken(error)
    }
}

impl Request {
    /// Runs the file's program on no inputs and on cells that are 0.
    pub fn new(heap: Global, file: String) -> Request
        ensures file { result.file ≡ file }
        ensures budget { result.budget ≡ budget_limit }
        ensures cells { result.cells ≡ replicate cell_count 0 }
        ensures inputs { result.inputs.items ≡ [] }
    {
        Request {
            file,
            budget: BUDGET_LIMIT,
            cells: [0; CELL_COUNT],
            inputs: Vec::new(heap),
        }
    }

    /// Takes what an argument asks for into the request.
    pub fn put(&mut self, argument: Argument) -> Result<(), AllocError>
        requires { InRange argument }
        ensures { OnOk result (Put self.old argument self.new) }
    {
        match argument {
            Argument::Budget(budget) => self.budget = budget,
            Argument::Cell(setting) => self.cells[setting.cell] = setting.word,
            Argument::Input(word) => self.inputs.push(word)?,
        }
        Ok(())
    }

    /// The request that a program's arguments make, its own name first.
    pub(crate) fn from_arguments(heap: Global, mut words: Args) -> Result<Request, ArgumentError> {
        let _name = words.next();
        let file = words.next().ok_or(ArgumentError::NoFile)?;
        let mut request = Request::new(heap, file);
        for word in words {
            let argument = parse_argument(word.as_str()).ok_or(ArgumentError::Wrong(word))?;
            request.put(argument)?;
        }
        Ok(request)
    }
}
