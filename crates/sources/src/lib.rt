// Match sources: where the facts of a sheet come from, and how they are amended.
#![tactic(auto)]

pub mod bribes;
mod kept;
pub mod kind;
pub mod matrix;
pub mod order;
pub mod pairing;
pub mod place;
pub mod source;
mod square;
#[cfg(test)]
mod tests;
