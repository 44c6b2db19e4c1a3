//! What a typed source means.

#![tactic(auto)]

mod laws;

pub use laws::spare_turns;
