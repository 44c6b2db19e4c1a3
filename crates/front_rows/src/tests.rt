//! Worked rows, each with values from outside.

mod fault_rows;
mod operator_rows;
mod operators;
mod texts;
mod tokens;
mod tree_rows;
mod trees;
