//! From the bytes of a C source to its pruned graphs, which do what the source means.

#![tactic(auto)]

mod fault_words;
pub mod graphs;
mod laws;
#[cfg(test)]
mod tests;

pub use graphs::{SourceFault, graphs_of};
pub use laws::accepting;
