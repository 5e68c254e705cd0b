// What the program prints, as functions of the answers: the program itself only prints these texts.
#![tactic(auto)]

pub mod columns;
pub mod help;
pub mod pairings;
pub mod refusals;
pub mod sheets;
#[cfg(test)]
mod tests;
