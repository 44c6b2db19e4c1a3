//! Tests of the file of notes; the file of notes that a file holds, and the place that a fault
//! tells.

#![tactic(auto)]

mod again;
mod places;
#[cfg(test)]
mod tests;

pub use again::written_again;
pub use places::place_of;
