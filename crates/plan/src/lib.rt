//! Line plans: words that say which unknowns and terms there are, and which cells are linked.
#![tactic(auto)]

mod head;
pub mod item;
pub mod reader;
pub mod refusal;
pub mod tally;
#[cfg(test)]
mod tests;
pub mod theorems;
