//! What a run of covered code counts: the passages of the arcs and the paths of the walks of its
//! calls.

#![tactic(auto)]

pub mod laws;

pub use laws::{call_words, walks_counted};
