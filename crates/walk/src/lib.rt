//! A depth-first walk over a graph of at most 2,048 nodes, with a stack of its own.
#![tactic(auto)]

pub mod graph;
pub mod state;
#[cfg(test)]
mod tests;
