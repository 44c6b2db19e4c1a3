//! The run of a C source by its code that counts, and tests of what it counts.

#![tactic(auto)]

#[cfg(test)]
mod tests;
mod text_run;

pub use text_run::{CountedRun, count_text};
