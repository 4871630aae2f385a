//! Runs of calls, and what holds of them.
#![tactic(auto)]

pub mod theorems;
