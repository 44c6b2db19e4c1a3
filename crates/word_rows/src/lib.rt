//! Tests of the words of commands; and whether words are a command.
#![tactic(auto)]

mod accepts;
#[cfg(test)]
mod tests;

pub use accepts::is_command;
