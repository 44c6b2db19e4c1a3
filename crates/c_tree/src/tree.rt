//! The tree of a source.

use crate::expr::Base;
use crate::ident::Ident;
use crate::stmt::{Stmt, Var};
use sqlite_items::Items;

/// A parameter. Its place is that of its name, or of its first type word where it has no name.
#[derive(Debug, Drop)]
pub struct Param {
    pub base: Base,
    pub name: Option<Ident>,
    pub place: u32,
}

/// The head of a function, with the place and line of its name.
#[derive(Debug, Drop)]
pub struct Head {
    pub base: Base,
    pub name: Ident,
    pub params: Items<Param>,
    pub place: u32,
    pub line: u32,
}

/// A part of a source outside all functions.
#[derive(Debug, Drop)]
pub enum Outer {
    Vars(Items<Var>),
    Prototype(Head),
    Function(Head, Items<Stmt>),
}

/// A source: its parts in order, and the end of its last token, or 0 where it has none.
#[derive(Debug, Drop)]
pub struct Tree {
    pub outers: Items<Outer>,
    pub end: u32,
}
