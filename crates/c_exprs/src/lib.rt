//! Readers of expressions, and of the lists that C has.

#![tactic(auto)]

mod exprs;
mod lists;
mod made;
mod nested;
mod operands;
mod operators;
mod prefixes;

pub use exprs::{read_assignment, read_closed, read_conditional, read_ended, read_expression};
pub use lists::{read_list, read_more};
