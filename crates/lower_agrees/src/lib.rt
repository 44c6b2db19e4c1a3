//! What a source means is what its graphs do: the theorem, and laws of those graphs, as clauses
//! that callers cite.

#![tactic(auto)]

pub mod laws;

pub use laws::agreement;
