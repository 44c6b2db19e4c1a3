//! The file of the counts that runs of a program leave.

#![tactic(auto)]

pub mod counts;
mod reading;
mod writing;

pub use counts::{Data, FunctionData};
pub use gcov_records::FileFault;
pub use reading::read_data;
pub use writing::write_data;

const MAGIC: u32 = 0x67636461;

const VERSION: u32 = 0x50313072;

const RUNS_TAG: u32 = 0xa1000000;

const FUNCTION_TAG: u32 = 0x01000000;

const COUNTER_TAG: u32 = 0x01a10000;

const BIT_TAG: u32 = 0x01f10000;

/// The greatest count of an arc.
pub const COUNT_LIMIT: u64 = 0x7fff_ffff_ffff_ffff;
