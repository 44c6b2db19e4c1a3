//! The law that the parser's rules derive exactly the sources of C17's grammar, each with one tree.

#![tactic(auto)]

pub mod laws;

pub use laws::derives_exactly_sources;
