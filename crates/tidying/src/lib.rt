// Tidying: targets are sent past skips, and the nodes that are then not reached are dropped.
#![tactic(auto)]

mod past;
mod reach;
mod renumber;
mod send;
mod spread;
pub mod tidy;
mod ways;
