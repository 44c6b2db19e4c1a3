//! All prime paths of a net, up to a limit.

#![tactic(auto)]

mod found;
pub mod laws;
mod listing;
mod search;
mod store;
mod trail;
mod ways;

pub use listing::{Listing, list_primes};
pub use store::Paths;
