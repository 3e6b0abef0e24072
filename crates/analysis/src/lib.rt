// What an analysis is: facts about states, how they flow over nodes, and what it proposes in a node's place.
#![tactic(auto)]

pub mod analysis;
pub mod deep;
pub mod pair;
pub mod pile;
pub mod proposal;
pub mod row;
