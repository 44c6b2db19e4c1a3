//! The counts of several runs as one.

#![tactic(auto)]

mod adding;
mod faults;
pub mod laws;
pub mod merging;

pub use merging::{MergeFault, merge_into};
