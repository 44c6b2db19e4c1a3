//! Codes in memory and code files, read and written again.

#![tactic(auto)]

#[cfg(test)]
mod file_tests;
mod rewriting;
#[cfg(test)]
mod tests;

pub use rewriting::rewritten;
