//! The check of names and types: it gives a source its typed form, or names a fault that stands in
//! it.

#![tactic(auto)]

mod declarations;
mod functions;
mod heads;
mod labels;
mod sources;
mod statements;
mod stmt_forms;

pub use c_typing::TypeFault;
pub use sources::check;
