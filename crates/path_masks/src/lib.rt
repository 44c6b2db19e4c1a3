//! Rows of bits by which a walk marks the paths that it covers.

#![tactic(auto)]

mod chunk;
pub mod laws;
mod path_test;
mod rows;

pub use rows::{Rows, rows_of};
