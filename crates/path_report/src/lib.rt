//! The report on runs of a program: what it is written from, and its text.

#![tactic(auto)]

mod report;
mod shown;
pub mod tallies;
mod tallying;

pub use function_tallies::{FunctionTally, TallyFault};
pub use report::text;
pub use tallies::Tally;
pub use tallying::tally;
