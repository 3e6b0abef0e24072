// Tries settling and rounds on whole programs, under several piles.
#![tactic(auto)]

#[cfg(test)]
mod decided;
#[cfg(test)]
mod declined;
pub mod doubling;
pub mod driver;
#[cfg(test)]
mod full;
#[cfg(test)]
mod programs;
#[cfg(test)]
mod withdrawn;
