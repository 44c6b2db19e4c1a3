//! The file of a program's notes: its functions, their blocks, arcs and lines.

#![tactic(auto)]

mod arcs;
mod files;
mod heads;
mod layout;
pub mod marks;
pub mod notes;
mod reading;
mod records;
mod values;
mod writing;

pub use arcs::checksum_of;
pub use gcov_records::FileFault;
pub use marks::{Marked, marks_of};
pub use notes::{FunctionNotes, Notes};
pub use reading::read_notes;
pub use writing::write_notes;

const MAGIC: u32 = 0x67636e6f;

const VERSION: u32 = 0x50313072;

const FUNCTION_TAG: u32 = 0x01000000;

const BLOCK_TAG: u32 = 0x01410000;

const ARC_TAG: u32 = 0x01430000;

const LINE_TAG: u32 = 0x01450000;

/// The greatest limit of paths.
pub const PATH_LIMIT: u32 = 65_536;
