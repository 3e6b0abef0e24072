// Prints the text of a program.
#![tactic(auto)]

mod name;
mod page;
pub mod print;
pub mod short_buffer;
