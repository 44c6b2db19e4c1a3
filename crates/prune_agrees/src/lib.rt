//! What a source means is what its pruned graphs do: the theorem, and what their nets rest on, as
//! clauses that callers cite.

#![tactic(auto)]

pub mod laws;

pub use laws::agreement;
