// What a sports region knows of its matches: facts, the sheet that they make up, and the refusals
// by which every call says what is wrong.
#![tactic(auto)]

pub mod amendments;
pub mod fields;
pub mod prices;
pub mod refusals;
pub mod refused;
pub mod sizes;
