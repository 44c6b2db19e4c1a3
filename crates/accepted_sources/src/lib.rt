//! Which texts are accepted, in the terms of C17 alone.

#![tactic(auto)]

pub mod laws;

pub use laws::c_sources_are_accepted;
