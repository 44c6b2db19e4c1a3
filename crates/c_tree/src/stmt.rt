//! Declarations of variables, and statements.

use crate::expr::{Base, Expr};
use crate::ident::Ident;
use sqlite_items::{Boxed, Items};

/// What stands behind a variable's name.
#[derive(Debug, Drop)]
pub enum Size {
    /// Nothing: it is no array.
    Scalar,
    /// `[]`.
    Unsized,
    /// `[` length `]`.
    Len(Expr),
}

/// The initialiser of a variable.
#[derive(Debug, Drop)]
pub enum Init {
    Absent,
    One(Expr),
    List(Items<Expr>),
}

/// A variable, with the place and line of its name.
#[derive(Debug, Drop)]
pub struct Var {
    pub base: Base,
    pub name: Ident,
    pub size: Size,
    pub init: Init,
    pub place: u32,
    pub line: u32,
}

/// A statement or a declaration in a function. The numbers at the end of some are place and line of
/// their word.
#[derive(Debug, Drop)]
#[cycle(stmt)]
pub enum Stmt {
    Vars(Items<Var>),
    Block(Items<Stmt>),
    Empty,
    Value(Boxed<Expr>),
    If(Boxed<Expr>, Boxed<Stmt>, Option<Boxed<Stmt>>),
    While(Boxed<Expr>, Boxed<Stmt>),
    /// The number is the line of its `while`.
    DoWhile(Boxed<Stmt>, Boxed<Expr>, u32),
    For(Boxed<ForHead>, Boxed<Stmt>),
    Switch(Boxed<Expr>, Items<SwitchItem>),
    Break(u32, u32),
    Continue(u32, u32),
    Return(Option<Boxed<Expr>>, u32, u32),
}

/// What stands in the parentheses of a `for`. The first part is a declaration or an expression.
#[derive(Debug, Drop)]
#[cycle(stmt)]
pub struct ForHead {
    pub first: Option<Stmt>,
    pub test: Option<Boxed<Expr>>,
    pub step: Option<Boxed<Expr>>,
}

/// A label or an item in the braces of a `switch`. A label has its place.
#[derive(Debug, Drop)]
#[cycle(stmt)]
pub enum SwitchItem {
    Case(Boxed<Expr>, u32),
    Default(u32),
    Item(Stmt),
}
