//! The answers of cov's commands: their exit statuses and their lines on the error output.
#![tactic(auto)]

mod answers;
mod complaints;
mod file_faults;
mod pieces;

pub use answers::{End, SourceFault, status_of};
pub use complaints::tell;
