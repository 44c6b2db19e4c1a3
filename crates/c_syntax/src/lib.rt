//! The grammar of C17 as the standard writes it, without look-ahead, and the law that the trees
//! that tokens derive by the parser's rules are trees of it.

#![tactic(auto)]

pub mod laws;

pub use laws::derived_trees;
