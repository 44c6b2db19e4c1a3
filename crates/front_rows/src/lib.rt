//! The tree of a text; and tests of the front: integer types, operators, tokens and trees.
#![tactic(auto)]

#[cfg(test)]
mod tests;
mod text_tree;

pub use text_tree::{TextFault, tree_of_text};
