//! Counters of the arcs of a net that are off its spanning tree.

#![tactic(auto)]

mod plan;

pub use plan::{Plan, number};
