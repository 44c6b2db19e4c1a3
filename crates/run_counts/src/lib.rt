//! Runs of a covered code: what each says, and what it adds to the counts of others.

#![tactic(auto)]

mod function_data;
pub mod laws;
mod runs;
mod texts;
mod whole_data;

pub use runs::{merge_closed, run_into};
pub use texts::is_closed;
pub use whole_data::{no_counts, run_data};
