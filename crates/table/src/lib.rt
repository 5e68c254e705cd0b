// The table of figures: its stages, and the questions that a complete one answers.
#![tactic(auto)]

pub mod afresh;
mod clearing;
pub mod filling;
pub mod opening;
pub mod questions;
mod singles;
pub mod stages;
#[cfg(test)]
mod tests;
pub mod winners;

// a walk through halves is reached from the table too
pub use cells::halves;
