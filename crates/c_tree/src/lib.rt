//! Trees of C sources: what a parser makes of a text, and what a check of types makes of that.

#![tactic(auto)]

pub mod expr;
pub mod globals;
pub mod ident;
pub mod make;
pub mod make_stmt;
pub mod stmt;
pub mod tree;
pub mod typed;
pub mod typed_expr;
pub mod typed_stmt;

pub use expr::{Base, Expr, ExprKind};
pub use globals::{Globals, NumberRun};
pub use ident::Ident;
pub use sqlite_items::{Boxed, Items};
pub use stmt::{ForHead, Init, Size, Stmt, SwitchItem, Var};
pub use tree::{Head, Outer, Param, Tree};
pub use typed::{Typed, TypedFunction};
pub use typed_expr::{Callee, CellAt, TypedExpr, TypedKind};
pub use typed_stmt::{TypedForHead, TypedInit, TypedStmt, TypedSwitchItem, TypedVar};
