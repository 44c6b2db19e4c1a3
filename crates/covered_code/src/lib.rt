//! From the bytes of a C source to its code that counts what its runs do, and to its notes.

#![tactic(auto)]

mod covered;
mod listed;
mod notes;
mod shapes;

pub use covered::{CodeFault, Covered, covered_code};
