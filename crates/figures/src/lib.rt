// Figures: sets of entrants, what brackets are, how many there are, and what is proved of the sums
// over them.
#![tactic(auto)]

pub mod counts;
pub mod sets;
#[cfg(test)]
mod tests;
pub mod theorems;
