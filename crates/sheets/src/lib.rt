// Sheets: the words in which a region sends its facts, read into match sources and written from them.
#![tactic(auto)]

mod draft;
pub mod held;
pub mod misread;
pub mod reader;
mod rows;
#[cfg(test)]
mod tests;
mod words;
pub mod writer;
