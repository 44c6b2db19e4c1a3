//! The typed form of a text; and tests of names and types.
#![tactic(auto)]

#[cfg(test)]
mod tests;
mod typed_text;

pub use typed_text::{TypedFault, typed_of_text};
