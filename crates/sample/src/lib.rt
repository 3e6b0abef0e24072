// An analysis written outside the optimiser, and its use beside any other.
#![tactic(auto)]

pub mod beside;
pub mod reached;
