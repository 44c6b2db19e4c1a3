//! The steps that cov's commands are made of: files that are loaded, read and replaced, and texts
//! that are written.
#![tactic(auto)]

mod loads;
mod merges;
mod names;
mod puts;
mod reads;

pub use loads::load;
pub use merges::merge;
pub use names::{code_name, data_name, notes_name, source_name};
pub use puts::{replace, write_text};
pub use reads::{load_code, load_data, load_notes};
