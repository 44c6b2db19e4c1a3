//! Statements whose expressions have types.

use crate::typed_expr::TypedExpr;
use int_ops::IntType;
use sqlite_items::{Boxed, Items};

/// The initialiser of a local variable.
#[derive(Debug, Drop)]
pub enum TypedInit {
    Absent,
    One(TypedExpr),
    List(Items<TypedExpr>),
}

/// A local variable: its first cell, its length where it is an array, and the place and line of its
/// name.
#[derive(Debug, Drop)]
pub struct TypedVar {
    pub cell: u64,
    pub number_type: IntType,
    pub length: Option<u64>,
    pub init: TypedInit,
    pub place: u32,
    pub line: u32,
}

/// A statement or a declaration in a function. The numbers at the end of some are place and line of
/// their word.
#[derive(Debug, Drop)]
#[cycle(typed_stmt)]
pub enum TypedStmt {
    Vars(Items<TypedVar>),
    Block(Items<TypedStmt>),
    Empty,
    Value(Boxed<TypedExpr>),
    If(Boxed<TypedExpr>, Boxed<TypedStmt>, Option<Boxed<TypedStmt>>),
    While(Boxed<TypedExpr>, Boxed<TypedStmt>),
    /// The number is the line of its `while`.
    DoWhile(Boxed<TypedStmt>, Boxed<TypedExpr>, u32),
    For(Boxed<TypedForHead>, Boxed<TypedStmt>),
    Switch(Boxed<TypedExpr>, Items<TypedSwitchItem>),
    Break(u32, u32),
    Continue(u32, u32),
    Return(Option<Boxed<TypedExpr>>, u32, u32),
}

/// What stands in the parentheses of a `for`.
#[derive(Debug, Drop)]
#[cycle(typed_stmt)]
pub struct TypedForHead {
    pub first: Option<TypedStmt>,
    pub test: Option<Boxed<TypedExpr>>,
    pub step: Option<Boxed<TypedExpr>>,
}

/// A label or an item in the braces of a `switch`. A label has its place.
#[derive(Debug, Drop)]
#[cycle(typed_stmt)]
pub enum TypedSwitchItem {
    Case(i128, u32),
    Default(u32),
    Item(TypedStmt),
}
