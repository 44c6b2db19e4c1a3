//! Spanning trees of nets.

#![tactic(auto)]

mod arrival;
mod arriving;
mod touching;
mod tree;

pub use arrival::Arrival;
pub use tree::{SpanTree, tree_of};
