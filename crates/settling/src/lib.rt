// Settling: Kildall's procedure, written and proved once for every analysis.
#![tactic(auto)]

pub mod node_set;
pub mod settle;
mod work;
pub mod worklist;
