// Algebras: the kinds of figure that a table of draws can hold, and how one kind leads to another.
#![tactic(auto)]

pub mod algebra;
pub mod bribe;
pub mod choosing;
pub mod draws;
pub mod passage;
pub mod possibility;
#[cfg(test)]
mod tests;
