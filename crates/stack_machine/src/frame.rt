//! Calls that wait.

/// A call that waits: its function, the instruction at which it goes on, and where its cells,
/// operands and path bits begin.
#[derive(Clone, Copy)]
pub(crate) struct Frame {
    pub(crate) function: usize,
    pub(crate) at: usize,
    pub(crate) base: usize,
    pub(crate) floor: usize,
    pub(crate) bits: usize,
}
