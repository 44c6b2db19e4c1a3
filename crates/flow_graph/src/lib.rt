//! Graphs of blocks, their nets and their runs.

#![tactic(auto)]

pub mod graph;
mod laws;
pub mod lines;

pub use graph::{Block, Ending, Graph, GraphUnit};
pub use laws::closed_walks;
