//! The operations of a stack machine: their table, the operands, input and output that they act on,
//! and one step.

#![tactic(auto)]

mod cell_steps;
mod element_steps;
pub mod endings;
pub mod machine_code;
pub mod op_stack;
mod operand_steps;
pub mod operation;
mod operator_steps;
pub mod run_io;
pub mod steps;
mod stream_steps;

pub use endings::{Outcome, Trap};
pub use machine_code::{Code, FunctionCode};
pub use op_stack::OpStack;
pub use operation::Op;
pub use run_io::RunIo;
pub use steps::step_op;
