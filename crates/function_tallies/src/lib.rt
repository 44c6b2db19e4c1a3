//! The tally of a function: the number on each arc, its prime paths, and the bits of the covered
//! ones.

#![tactic(auto)]

mod numbers;
mod parts;
mod shape;
pub mod tally;

pub use tally::{FunctionTally, TallyFault, tally_function};
