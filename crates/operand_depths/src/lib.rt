//! How many operands stand where a block begins: the law that each operation of a source's graphs
//! finds what it takes, as clauses that callers cite.

#![tactic(auto)]

pub mod laws;

pub use laws::depths;
