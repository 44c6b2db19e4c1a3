//! The command `run`: a program that is run on standard input.
#![tactic(auto)]

mod finished;
mod kept;
pub mod laws;
mod running;

pub use running::run;
