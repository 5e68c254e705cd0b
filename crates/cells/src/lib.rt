// Cells of a table: the halves of a set, the weights of a level, and the refresh of a level from the one
// below it.
#![tactic(auto)]

pub mod container;
mod grid;
pub mod halves;
pub mod place;
mod refresh;
pub mod room;
#[cfg(test)]
mod tests;
