//! Makers of statements: each takes the parts and says what the definitions see.

ghost use Rattle.std.specs.Prelude.{◌≡◌, IfOk, map};
ghost use Rattle.c_tree.specs.Stmt.{Stmt as StmtSeen, OtherStmt};
ghost use Rattle.c_tree.specs.TreeView.{
  expr_view,
  for_view,
  item_view,
  items_of,
  stmt_view,
  stmts_of,
  var_view,
};

use crate::expr::Expr;
use crate::stmt::{ForHead, Stmt, SwitchItem, Var};
use sqlite_items::{Boxed, Items};
use std::alloc::{AllocError, Global};

/// A declaration of these variables.
pub fn vars(vars: Items<Var>) -> Stmt
    ensures { stmt_view result ≡ StmtSeen.Vars (map var_view vars) }
{
    Stmt::Vars(vars)
}

/// `{` items `}`
pub fn block(items: Items<Stmt>) -> Stmt
    ensures { stmt_view result ≡ StmtSeen.Block (stmts_of (map stmt_view items)) }
{
    Stmt::Block(items)
}

/// An expression and `;`.
pub fn value(expr: Boxed<Expr>) -> Stmt
    ensures { stmt_view result ≡ StmtSeen.Value (expr_view expr) }
{
    Stmt::Value(expr)
}

/// `if (` test `)` first
pub fn if_(alloc: Global, test: Boxed<Expr>, first: Stmt) -> Result<Stmt, AllocError>
    ensures { IfOk result (λ s. stmt_view s
        ≡ StmtSeen.If (expr_view test) (stmt_view first) OtherStmt.Nothing) }
{
    Ok(Stmt::If(test, Boxed::new(alloc, first)?, None))
}

/// `if (` test `)` first `else` second
pub fn if_else(
    alloc: Global,
    test: Boxed<Expr>,
    first: Stmt,
    second: Stmt,
) -> Result<Stmt, AllocError>
    ensures { IfOk result (λ s. stmt_view s
        ≡ StmtSeen.If (expr_view test) (stmt_view first) (OtherStmt.There (stmt_view second))) }
{
    let first = Boxed::new(alloc, first)?;
    let second = Boxed::new(alloc, second)?;
    Ok(Stmt::If(test, first, Some(second)))
}

/// `while (` test `)` body
pub fn while_(alloc: Global, test: Boxed<Expr>, body: Stmt) -> Result<Stmt, AllocError>
    ensures { IfOk result (λ s. stmt_view s ≡ StmtSeen.While (expr_view test) (stmt_view body)) }
{
    Ok(Stmt::While(test, Boxed::new(alloc, body)?))
}

/// `do` body `while (` test `);`, with the line of its `while`.
pub fn do_while(alloc: Global, body: Stmt, test: Boxed<Expr>, line: u32) -> Result<Stmt, AllocError>
    ensures { IfOk result (λ s. stmt_view s
        ≡ StmtSeen.DoWhile (stmt_view body) (expr_view test) line) }
{
    Ok(Stmt::DoWhile(Boxed::new(alloc, body)?, test, line))
}

/// `for (` head `)` body
pub fn for_(alloc: Global, head: ForHead, body: Stmt) -> Result<Stmt, AllocError>
    ensures { IfOk result (λ s. stmt_view s ≡ StmtSeen.For (for_view head) (stmt_view body)) }
{
    let head = Boxed::new(alloc, head)?;
    Ok(Stmt::For(head, Boxed::new(alloc, body)?))
}

/// `switch (` value `) {` items `}`
pub fn switch(value: Boxed<Expr>, items: Items<SwitchItem>) -> Stmt
    ensures { stmt_view result
        ≡ StmtSeen.Switch (expr_view value) (items_of (map item_view items)) }
{
    Stmt::Switch(value, items)
}

/// `return;`, with the place and line of its word.
pub fn return_nothing(place: u32, line: u32) -> Stmt
    ensures { stmt_view result ≡ StmtSeen.Return None place line }
{
    Stmt::Return(None, place, line)
}

/// `return` value `;`, with the place and line of its word.
pub fn return_value(value: Boxed<Expr>, place: u32, line: u32) -> Stmt
    ensures { stmt_view result ≡ StmtSeen.Return (Some (expr_view value)) place line }
{
    Stmt::Return(Some(value), place, line)
}
