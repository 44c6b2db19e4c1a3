//! The checks of a code: the first rule that it breaks, with the place.

#![tactic(auto)]

mod code_rules;
pub mod depth_table;
mod depths;
mod flow;
mod instructions;
pub mod limits;
mod needs;
mod numbers;
pub mod rules;
mod shapes;
mod tables;

pub use code_rules::{code_fault, main_kept};
pub use instructions::instruction_fault;
pub use rules::{Rule, RuleFault};
pub use tables::{table_word, words_in};
