//! Classes of cells: a union-find by size over at most 2,048 cells, with a trail by which links are undone.
#![tactic(auto)]

mod forest;
mod link;

pub use forest::Classes;
pub use link::Link;

#[cfg(test)]
mod tests;
