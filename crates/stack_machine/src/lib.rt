//! The stack machine: it runs a code on an input, as often as it is told, within memory that it
//! took at first.

#![tactic(auto)]

mod begin;
mod bits;
mod call_ops;
mod cell_ops;
mod count_ops;
mod counts;
mod finish;
mod frame;
mod globals;
mod jump_ops;
pub mod machine;
mod operand_ops;
mod operator_ops;
mod quick;
mod rows;
mod run;
mod step;
mod store;
mod stream_ops;
mod streams;

pub use machine::Machine;
