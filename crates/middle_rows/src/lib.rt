//! Tests of the operations over operands, cells, input and output in memory; and operators by way
//! of the stack machine.
#![tactic(auto)]

mod operator_steps;
#[cfg(test)]
mod tests;

pub use operator_steps::by_stack;
