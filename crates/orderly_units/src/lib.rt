//! The pruned graphs of a sound source have what their code needs to pass the checks, as clauses
//! that callers cite.

#![tactic(auto)]

pub mod laws;

pub use laws::orderly;
