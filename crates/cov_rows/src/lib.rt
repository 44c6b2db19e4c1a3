//! Tests of the top call over objects in memory, and that call where nothing outside fails.
#![tactic(auto)]

mod sure;
#[cfg(test)]
mod tests;

pub use sure::perform_surely;
