//! What the data and the tallies of runs say of the walks that the runs went.

#![tactic(auto)]

pub mod laws;

pub use laws::{runs_added, walks_circulate, walks_reported, walks_tallied};
