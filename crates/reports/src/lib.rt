// What the program prints of a table of figures, as functions of the answers.
#![tactic(auto)]

pub mod answers;
pub mod entrants;
#[cfg(test)]
mod tests;
pub mod winners;
