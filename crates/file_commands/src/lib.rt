//! The commands on files of notes and data: `merge` and `report`.
#![tactic(auto)]

mod empty;
pub mod laws;
mod loads;
mod merge;
mod reporting;
mod tallying;

pub use loads::find_data;
pub use merge::merge_files;
pub use reporting::report;
pub use tallying::tallied;
