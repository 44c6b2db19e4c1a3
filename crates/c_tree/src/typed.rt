//! A source whose names and types are known.

use crate::expr::Base;
use crate::globals::Globals;
use crate::ident::Ident;
use crate::typed_stmt::TypedStmt;
use int_ops::IntType;
use sqlite_items::Items;

/// A function. Its cells are numbered in the order of the text, parameters first; an array takes as
/// many as its length.
#[derive(Debug, Drop)]
pub struct TypedFunction {
    pub name: Ident,
    pub line: u32,
    pub result: Base,
    pub params: Items<IntType>,
    /// How many cells its frame has.
    pub cells: u64,
    pub body: Items<TypedStmt>,
}

/// A source: its functions in the order of their definitions, the numbers that its globals begin
/// with, and the number of `main`.
#[derive(Debug, Drop)]
pub struct Typed {
    pub functions: Items<TypedFunction>,
    pub globals: Globals,
    pub main: u32,
}
