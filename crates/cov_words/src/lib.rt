//! The command that words ask for.

#![tactic(auto)]

mod command;
mod numbers;
mod reader;
mod syntax;
mod values;

pub use command::{Command, UsageFault, WordsFault};
pub use reader::read_words;
