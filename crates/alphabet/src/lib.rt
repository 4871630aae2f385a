//! Alphabets: which symbols there are. The trait, and the alphabets of types and of loads.
#![tactic(auto)]

pub mod alphabet;
pub mod layering;
pub mod loads;
#[cfg(test)]
mod tests;
pub mod types;
