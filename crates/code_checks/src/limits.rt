//! The limits of codes.

/// The cells of a call.
pub const CELL_LIMIT: u32 = 4096;

/// The operands of a call.
pub const DEPTH_LIMIT: u32 = 16384;

/// The paths of a function.
pub const PATH_LIMIT: u32 = 65536;

/// The counters and path words of all functions of a code together.
pub const NUMBER_LIMIT: u64 = 4_194_304;

/// The instructions of all functions of a code together.
pub const INSTRUCTION_LIMIT: u64 = 1_048_576;
