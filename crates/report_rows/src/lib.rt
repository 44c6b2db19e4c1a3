//! Tests of reports, from notes and data to the text; and the call that joins the two steps.

#![tactic(auto)]

mod reporting;
#[cfg(test)]
mod tests;

pub use reporting::{counts_fit, report_of};
