// The text of a program: what it is, and how it is read.
#![tactic(auto)]

pub mod cause;
pub mod kind;
pub mod place;
pub mod read;
pub mod refusal;
