//! The file of a code, and codes that break no rule.

#![tactic(auto)]

pub mod checked;
pub mod fault;
mod fault_words;
pub mod head;
pub mod laws;
pub mod numbers;
pub mod op_items;
mod placed_checks;
pub mod reader;
mod taking;
pub mod taking_functions;
mod taking_ops;
mod taking_tables;
mod write;

pub use checked::Checked;
pub use fault::CodeFault;
pub use laws::reading;
pub use reader::read_code;
pub use write::write_code;
