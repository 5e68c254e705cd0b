// Records of filled brackets: words that tell who met whom and who won, and a verifier of them.
#![tactic(auto)]

mod judging;
mod parts;
mod reading;
#[cfg(test)]
mod tests;
pub mod theorems;
pub mod verdict;
mod words;
