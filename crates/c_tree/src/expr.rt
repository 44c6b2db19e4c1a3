//! Expressions.

use crate::ident::Ident;
use int_ops::{BinOp, IntType};
use sqlite_items::{Boxed, Items};

/// The type of an expression, a variable or a function's result.
#[derive(Clone, Copy, Debug, PartialEq, Eq)]
pub enum Base {
    Void,
    Int(IntType),
}

/// An expression, with the place and line of its operator, or of its only token.
#[derive(Debug, Drop)]
#[cycle(expr)]
pub struct Expr {
    pub kind: ExprKind,
    /// A byte of the text.
    pub place: u32,
    pub line: u32,
}

/// The form of an expression. A call stands at the called name, an index at its `[`, parentheses
/// and a cast at their `(`, and `?:` at its `?`.
#[derive(Debug, Drop)]
#[cycle(expr)]
pub enum ExprKind {
    Name(Ident),
    /// A number or a character, with its type.
    Number(i128, IntType),
    EofName,
    Paren(Boxed<Expr>),
    Call(Ident, Items<Expr>),
    /// An array's name with its place and line, and the index.
    Index(Ident, u32, u32, Boxed<Expr>),
    Plus(Boxed<Expr>),
    Minus(Boxed<Expr>),
    Complement(Boxed<Expr>),
    Not(Boxed<Expr>),
    Cast(Base, Boxed<Expr>),
    Binary(BinOp, Boxed<Expr>, Boxed<Expr>),
    AndAlso(Boxed<Expr>, Boxed<Expr>),
    OrElse(Boxed<Expr>, Boxed<Expr>),
    Choose(Boxed<Expr>, Boxed<Expr>, Boxed<Expr>),
    /// What is assigned to, and the value; with an operator as in `+=`.
    Assign(Option<BinOp>, Boxed<Expr>, Boxed<Expr>),
    /// `++` or `--` before its operand, as the operators `+` and `-`.
    Before(BinOp, Boxed<Expr>),
    /// The same behind it.
    After(BinOp, Boxed<Expr>),
    Comma(Boxed<Expr>, Boxed<Expr>),
}
