//! How a block of a net came to its spanning tree.

/// A block that has come, and the arc by which it came.
#[derive(Clone, Copy, Debug, PartialEq, Eq)]
pub struct Arrival {
    /// The block.
    pub block: u32,
    /// The index of the arc by which it came; none for the exit, which was there first, and for
    /// the entry, which came by the unwritten arc from the exit.
    pub link: Option<u32>,
}
