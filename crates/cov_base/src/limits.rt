//! The limits of the program, each named once.

/// The bytes of a source.
pub const SOURCE_LIMIT: usize = 1_048_576;

/// The bytes of another file, and of an input.
pub const FILE_LIMIT: usize = 67_108_864;

/// The bytes that a run puts out.
pub const OUTPUT_LIMIT: usize = 16_777_216;

/// The levels of a tree, from its statement or expression to a leaf.
pub const LEVEL_LIMIT: u32 = 256;

/// The parameters of a function.
pub const PARAMETER_LIMIT: usize = 64;

/// The elements of an array, and the cells of all globals.
pub const ARRAY_LIMIT: u64 = 1_048_576;

/// The blocks of a function.
pub const BLOCK_LIMIT: u32 = 512;

/// The arcs of a function.
pub const ARC_LIMIT: usize = 4096;

/// The size of a unit of graphs: its operations, its endings and 8 for each arc.
pub const UNIT_LIMIT: u64 = 1_048_576;

/// The turns of a run where none are given.
pub const DEFAULT_TURNS: u64 = 1_000_000_000;
