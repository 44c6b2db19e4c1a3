//! What the next tokens can begin.

use int_ops::{BinOp, IntType};

/// What an operand begins as.
#[derive(Clone, Copy, Debug, PartialEq, Eq)]
pub enum Operand {
    Name,
    /// A number or a character, with its type.
    Number(i128, IntType),
    EofName,
    Paren,
    /// A name and `(`.
    Call,
    /// A name and `[`.
    Index,
    /// The tokens begin no operand.
    Absent,
}

/// An operator before its operand, other than `++` and `--`.
#[derive(Clone, Copy, Debug, PartialEq, Eq)]
pub enum UnaryOperator {
    Plus,
    Minus,
    Complement,
    Not,
}

/// What stands before the operand of a unary expression.
#[derive(Clone, Copy, Debug, PartialEq, Eq)]
pub enum Prefix {
    Absent,
    /// `++` or `--`, as the operators `+` and `-`.
    Increment(BinOp),
    Operator(UnaryOperator),
}

/// An operator between two operands.
#[derive(Clone, Copy, Debug, PartialEq, Eq)]
pub enum BinaryOperator {
    Plain(BinOp),
    LogicalAnd,
    LogicalOr,
}

/// What stands in the parentheses of a function.
#[derive(Clone, Copy, Debug, PartialEq, Eq)]
pub enum ParamsForm {
    /// Nothing.
    Empty,
    /// `void`.
    OnlyVoid,
    /// Parameters with commas between them.
    Listed,
}

/// What a statement begins as.
#[derive(Clone, Copy, Debug, PartialEq, Eq)]
pub enum StmtForm {
    Block,
    If,
    While,
    Do,
    For,
    Switch,
    Break,
    Continue,
    Return,
    /// An expression, or nothing but `;`.
    Value,
}

/// What begins in the braces of a `switch`.
#[derive(Clone, Copy, Debug, PartialEq, Eq)]
pub enum ItemForm {
    Case,
    Default,
    /// A declaration or a statement.
    Item,
}

/// What tells that a further member of a list follows.
#[derive(Clone, Copy, Debug, PartialEq, Eq)]
pub enum Following {
    /// A comma.
    Comma,
    /// A comma that no `}` stands behind.
    CommaAndMore,
    /// Anything but `}`.
    UpToBrace,
    /// Anything.
    UpToEnd,
}
