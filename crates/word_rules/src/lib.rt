//! A count of steps that only contracts see, and the rules by which the bits of paths go on along a
//! walk.

#![tactic(auto)]

pub mod laws;
mod steps;
mod words;

pub use steps::Steps;
pub use words::{begin, pass};
