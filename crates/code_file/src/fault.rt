//! What is wrong with the bytes of a code.

/// What is wrong with the bytes of a code, with the place in them.
#[derive(Clone, Copy, Debug, PartialEq, Eq)]
pub enum CodeFault {
    /// The bytes end within a file, here.
    Short(u64),
    /// The first word isn't that of a code.
    Magic(u64),
    /// The version isn't this one.
    Version(u64),
    /// A number of the code, of a function or of a table, or a global, isn't one that may stand.
    Field(u64),
    /// This is no operation, or a field of it is none.
    Opcode(u64),
    /// An instruction goes to none that is later, or the last one leads on.
    Jump(u64),
    /// Back goes to a later instruction.
    BackJump(u64),
    /// An instruction has more than one number of operands, or too few or too many.
    Depth(u64),
    /// A cell, a global or a function isn't there.
    Cell(u64),
    /// A counter isn't there.
    Counter(u64),
    /// A row isn't there, or one of its words.
    Row(u64),
    /// Bytes stand behind the file, from here on.
    Extra(u64),
}
