// The controller's machine: its nodes and programs, what one node does, and runs of a program.
#![tactic(auto)]

pub mod arithmetic;
pub mod node;
pub mod outcome;
pub mod program;
mod progress;
mod sound;
mod step;
