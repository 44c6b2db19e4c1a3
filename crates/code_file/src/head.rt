//! The numbers with which a code file begins.

/// The numbers with which a code file begins, and the place of the main function's.
#[derive(Clone, Copy, Debug, PartialEq, Eq)]
pub struct Head {
    pub stamp: u32,
    pub covered: bool,
    pub main: u32,
    pub main_at: u64,
    /// How many globals there are.
    pub globals: u32,
}
