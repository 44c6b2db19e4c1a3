//! The graphs of a text before they are pruned; and tests of lowering, with a plain interpreter of
//! graphs.
#![tactic(auto)]

mod lowered_text;
pub mod runs;
#[cfg(test)]
mod tests;

pub use lowered_text::{LoweredFault, lowered_of_text};
