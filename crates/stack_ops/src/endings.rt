//! How a run ends.

/// Why a run stops where it can't go on.
#[derive(Clone, Copy, Debug, PartialEq, Eq)]
pub enum Trap {
    /// A signed result is outside its type.
    Overflow,
    /// The right operand of a quotient or a remainder is 0.
    DivideByZero,
    /// A shift count is negative, or at least the width of the type.
    ShiftRange,
    /// An index is below 0, or at least the length of its array.
    BadIndex,
    /// A function is called while as many calls are open as may be.
    CallDepth,
    /// A byte is put when as many are there as may be.
    OutputLimit,
}

/// How a run ends.
#[derive(Clone, Copy, Debug, PartialEq, Eq)]
pub enum Outcome {
    /// The main function returned, with this status.
    Returned(u8),
    /// The program ended itself, with this status.
    Exited(u8),
    /// A trap stopped it at a source line; the line is 0 where no source names one.
    Trapped(Trap, u32),
    /// It took as many turns as it may.
    OutOfTurns,
}
