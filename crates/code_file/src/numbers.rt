//! The numbers of a function in a file.

/// How many parameters, cells and operands a function has, and whether it gives a number.
#[derive(Clone, Copy, Debug, PartialEq, Eq)]
pub struct Sizes {
    pub params: u32,
    pub cells: u32,
    pub depth: u32,
    pub gives: bool,
}

/// What a function counts: the checksum of its net, its counters, its paths and the rows of its
/// table.
#[derive(Clone, Copy, Debug, PartialEq, Eq)]
pub struct Counts {
    pub checksum: u32,
    pub counters: u32,
    pub paths: u32,
    pub passes: u32,
}
