//! cov's commands over any input, output and folder.
#![tactic(auto)]

mod command;

pub use command::perform;
pub use cov_answers::{End, SourceFault, status_of, tell};
