//! The parts of a report on runs of a program: head, source lines, functions and sums.

#![tactic(auto)]

mod arc_test;
mod arcs;
mod counts;
mod functions;
pub mod laws;
mod lines;
mod numbers;
mod paths;
mod pieces;
mod report;
mod shown;
mod sums;

pub use report::push_report;
pub use shown::Shown;
