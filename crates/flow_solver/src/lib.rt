//! The numbers on all arcs of a net, from the counters of the arcs off its spanning tree.

#![tactic(auto)]

mod solver;

pub use solver::{NotAFlow, solve};
