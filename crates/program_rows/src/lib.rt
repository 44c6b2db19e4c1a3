//! The run of a C source from its bytes, and tests of it.

#![tactic(auto)]

mod running;
#[cfg(test)]
mod tests;

pub use running::{TextRun, run_text};
