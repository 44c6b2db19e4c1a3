//! Why tokens have no tree.

/// Why tokens have no tree, with a place in the text: the start of the token at which the reader
/// stopped, or the length of the text where the tokens end too early.
#[derive(Clone, Copy, Debug, PartialEq, Eq)]
pub enum ParseFault {
    /// No tree derives them.
    Syntax(u32),
    /// A tree would go deeper than it may.
    TooDeep(u32),
}
