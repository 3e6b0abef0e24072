// Rounds: a program is settled under a pile, and what the pile then proposes is made of it.
#![tactic(auto)]

pub mod change;
mod itself;
mod lay;
pub mod round;
