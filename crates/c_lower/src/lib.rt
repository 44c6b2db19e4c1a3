//! What lowering is: the graphs of a typed source.

#![tactic(auto)]

mod assignments;
mod blocks;
mod conditions;
mod declarations;
mod exits;
mod labels;
mod laws;
mod loops;
mod lowering;
pub mod named;
mod numbers;
mod operations;
mod pieces;
mod statements;
mod switches;
mod tables;
mod values;

pub use laws::found_by_number;
pub use lowering::{LowerFault, check_globals, lower, lower_function};
