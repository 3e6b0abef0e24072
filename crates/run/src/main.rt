// Runs the program of a text file, and tells what it did.
#![tactic(auto)]

mod arguments;
mod perform;
mod report;
mod request;
mod spelling;

use crate::perform::perform;
use std::process::ExitCode;

fn main(rt: HostRuntime) -> ExitCode {
    match perform(&rt) {
        Ok(()) => ExitCode::SUCCESS,
        Err(_) => ExitCode::FAILURE,
    }
}
