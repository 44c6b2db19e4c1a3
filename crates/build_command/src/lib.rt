//! The command `build`: sources that are compiled to files.
#![tactic(auto)]

mod building;
mod compiled;

pub use building::{build, build_plain};
pub use compiled::compile;
