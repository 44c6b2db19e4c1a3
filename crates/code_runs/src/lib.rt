//! What the code of a stack machine is: the rules that it keeps, and its runs.

#![tactic(auto)]

mod laws;

pub use laws::{counters, never_stuck, runs_end};
