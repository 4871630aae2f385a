//! The texts that are printed about plans, each as what the `Display` of a type writes.
#![tactic(auto)]

pub mod counts;
pub mod items;
pub mod names;
pub mod refusals;
#[cfg(test)]
mod tests;
pub mod texts;
pub mod tokens;
