//! Where notes end: bytes behind a file that can't belong to it.

#![tactic(auto)]

pub mod laws;

pub use laws::extra_is_behind;
