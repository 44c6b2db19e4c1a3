//! Drops the blocks of graphs that nothing reaches, and makes the nets of graphs.

#![tactic(auto)]

mod counts;
mod marking;
mod nets;
mod numbers;
mod pruning;
mod targets;

pub use nets::net_of;
pub use pruning::{SizeFault, prune};
pub use targets::targets_of;
