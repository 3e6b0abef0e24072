// Tries the analyses on nodes, one by one and in a pile.
#![tactic(auto)]

#[cfg(test)]
mod asked;
#[cfg(test)]
mod entries;
#[cfg(test)]
mod nodes;
#[cfg(test)]
mod piles;
#[cfg(test)]
mod small;
