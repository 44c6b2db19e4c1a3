//! Tests of prime paths and of the word rules; and a listing that counts nothing.
#![tactic(auto)]

mod listings;
#[cfg(test)]
mod tests;

pub use listings::list_uncounted;
