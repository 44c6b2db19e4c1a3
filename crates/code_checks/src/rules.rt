//! The rules.

/// A rule that a code may break.
#[derive(Clone, Copy, Debug, PartialEq, Eq)]
pub enum Rule {
    /// The numbers of a function or of the code are within their limits.
    Field,
    /// The number of an instruction is one that may stand.
    Opcode,
    /// A jump leads to a later instruction, and the last instruction leads to none behind it.
    Jump,
    /// Back leads to no later instruction.
    BackJump,
    /// An instruction has one number of operands, enough and not too many.
    Depth,
    /// Cells, globals and functions are there.
    Cell,
    /// Counters are there.
    Counter,
    /// Rows are there, and their words.
    Row,
}

/// A rule that is broken, and the place: the number of an instruction; for `Field` the number of a
/// function, or 0 for the code's own numbers; in a table the place in it.
#[derive(Clone, Copy, Debug, PartialEq, Eq)]
pub struct RuleFault {
    pub place: u64,
    pub rule: Rule,
}
