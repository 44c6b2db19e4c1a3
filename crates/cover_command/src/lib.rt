//! The command `cover`: a source that is run on inputs, and the report on what ran.
#![tactic(auto)]

mod covering;
mod runs;

pub use covering::{CoverWords, cover};
