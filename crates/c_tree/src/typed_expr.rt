//! Expressions with their types.

use crate::expr::Base;
use int_ops::{BinOp, IntType};
use sqlite_items::{Boxed, Items};

/// A cell of a variable; of an array its first cell.
#[derive(Clone, Copy, Debug, PartialEq, Eq)]
pub enum CellAt {
    /// A cell of the function's frame.
    Local(u64),
    Global(u64),
}

/// What is called.
#[derive(Clone, Copy, Debug, PartialEq, Eq)]
pub enum Callee {
    /// A function of the source, by its number.
    Function(u32),
    GetChar,
    PutChar,
    Exit,
}

/// An expression with its type, and the place and line of its operator, or of its only token.
#[derive(Debug, Drop)]
#[cycle(typed_expr)]
pub struct TypedExpr {
    pub kind: TypedKind,
    pub base: Base,
    /// A byte of the text.
    pub place: u32,
    pub line: u32,
}

/// The form of a typed expression.
#[derive(Debug, Drop)]
#[cycle(typed_expr)]
pub enum TypedKind {
    Name(CellAt),
    Number(i128, IntType),
    EofName,
    Call(Callee, Items<TypedExpr>),
    /// The array's first cell, its length, the place and line of its name, and the index.
    Index(CellAt, u64, u32, u32, Boxed<TypedExpr>),
    /// A conversion that the source doesn't write, to the type of this expression.
    Convert(Boxed<TypedExpr>),
    Plus(Boxed<TypedExpr>),
    Minus(Boxed<TypedExpr>),
    Complement(Boxed<TypedExpr>),
    Not(Boxed<TypedExpr>),
    Cast(Base, Boxed<TypedExpr>),
    Binary(BinOp, Boxed<TypedExpr>, Boxed<TypedExpr>),
    AndAlso(Boxed<TypedExpr>, Boxed<TypedExpr>),
    OrElse(Boxed<TypedExpr>, Boxed<TypedExpr>),
    Choose(Boxed<TypedExpr>, Boxed<TypedExpr>, Boxed<TypedExpr>),
    /// What is assigned to, and the value; with an operator as in `+=`.
    Assign(Option<BinOp>, Boxed<TypedExpr>, Boxed<TypedExpr>),
    Before(BinOp, Boxed<TypedExpr>),
    After(BinOp, Boxed<TypedExpr>),
    Comma(Boxed<TypedExpr>, Boxed<TypedExpr>),
}
