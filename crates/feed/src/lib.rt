//! Feed: plans that are done on a workspace.
#![tactic(auto)]

pub mod theorems;
