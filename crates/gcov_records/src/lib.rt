//! Records of files, read with the first fault and its place, and written.

#![tactic(auto)]

pub mod fault;
mod taking;
mod writing;

pub use fault::FileFault;
pub use taking::{take_end, take_fixed, take_header, take_longs, take_word};
pub use writing::put_longs;
