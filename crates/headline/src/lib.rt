//! What `cov` is for: its runs do what a C source means, and its reports tell what their walks
//! passed and contained.

#![tactic(auto)]

pub mod laws;

pub use laws::{covers_are_meant, files_add_up, reports_are_meant, runs_are_meant};
