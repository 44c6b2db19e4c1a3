//! What names mean.

use c_tree::{Base, Callee, CellAt};
use int_ops::IntType;
use sqlite_items::Items;

/// What a name means.
#[derive(Debug, Drop)]
pub enum Meaning {
    /// A variable: its first cell, its length where it is an array, and its type.
    Variable(CellAt, Option<u64>, IntType),
    /// A function: what a call of it calls, where it is defined; its result and the types of its
    /// parameters.
    Function(Option<Callee>, Base, Items<Base>),
}
