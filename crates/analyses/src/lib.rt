// The analyses that come with the optimiser: what each knows of the states at a node, and what it proposes in the node's place.
#![tactic(auto)]

pub mod arithmetic;
pub mod branches;
pub mod constants;
pub mod copies;
pub mod entries;
mod folding;
mod operands;
pub mod reach;
pub mod standard;
