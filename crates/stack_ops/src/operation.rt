//! The operations.

use int_ops::IntType;

/// An operation. The forty-seven are coded 0 to 46, in this order. Where an operation may trap, the
/// line of its trap stands last; loads and stores of elements trap at line 0.
#[derive(Clone, Copy, Debug, PartialEq, Eq)]
pub enum Op {
    /// Gives the number.
    Push(i128),
    /// Gives the top once more.
    Dup,
    /// Takes the top away.
    Drop,
    /// Exchanges the two numbers at the top.
    Swap,
    /// Gives the number below the top once more.
    Over,
    /// Converts the top to the type.
    Convert(IntType),
    /// Makes 1 of 0, and 0 of every other number.
    Not,
    /// Gives the cell of the frame with this number.
    LoadLocal(u32),
    /// Sets the cell to the top, which stays.
    StoreLocal(u32),
    /// The same of the globals.
    LoadGlobal(u32),
    StoreGlobal(u32),
    /// The length of an array: leaves an index that is one of the array's.
    CheckIndex(u32, u32),
    /// The first cell of an array and its length: takes an index and gives its element.
    LoadLocalAt(u32, u32),
    /// Takes an index and a number, sets the element and gives the number.
    StoreLocalAt(u32, u32),
    /// The same of an array among the globals.
    LoadGlobalAt(u32, u32),
    StoreGlobalAt(u32, u32),
    /// The type in which the two operands are taken, as of all operators that follow.
    Mul(IntType, u32),
    Div(IntType, u32),
    Rem(IntType, u32),
    Add(IntType, u32),
    Sub(IntType, u32),
    Shl(IntType, u32),
    Shr(IntType, u32),
    Less(IntType, u32),
    Greater(IntType, u32),
    LessEqual(IntType, u32),
    GreaterEqual(IntType, u32),
    Equal(IntType, u32),
    NotEqual(IntType, u32),
    And(IntType, u32),
    Xor(IntType, u32),
    Or(IntType, u32),
    Minus(IntType, u32),
    Complement(IntType, u32),
    /// Gives the next byte of the input, or -1 at its end.
    GetChar,
    /// Puts the number modulo 256 into the output and gives that byte.
    PutChar(u32),
    /// Goes to the instruction with this number.
    Jump(u32),
    /// Takes a turn and goes back.
    Back(u32),
    /// Takes a number and goes where it is 0.
    IfZero(u32),
    /// Takes a number and goes where it isn't 0.
    IfNot(u32),
    /// Takes the top and goes where it is the number.
    CaseJump(i128, u32),
    /// Takes a turn and calls the function with this number.
    Call(u32, u32),
    /// Ends the call.
    Return,
    /// Takes a number and ends the run with it modulo 256.
    Exit,
    /// Adds one to the function's counter with this number.
    Count(u32),
    /// Begins the paths of the frame.
    PathBegin,
    /// Passes the row of the function's table with this number.
    PathPass(u32),
}
