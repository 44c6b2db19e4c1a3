//! The typed forms of statements, made from their parts.

ghost use Rattle.std.specs.Prelude.{◌≡◌, IfOk};
ghost use Rattle.c_tree.specs.TypedStmt.{TypedStmt as Plain};
ghost use Rattle.c_tree.specs.TypedView.{typed_expr_view, typed_stmt_view};
ghost use Rattle.c_types.specs.StmtChecks.{typed_head_seen, typed_stmts_seen, typed_items_seen};

use c_tree::{TypedExpr, TypedForHead, TypedStmt, TypedSwitchItem};
use sqlite_items::{Boxed, Items};
use std::alloc::{AllocError, Global};

/// `{` statements `}`
pub fn braces(ss: Items<TypedStmt>) -> TypedStmt
    ensures { typed_stmt_view result ≡ Plain.Block (typed_stmts_seen ss) }
{
    TypedStmt::Block(ss)
}

/// A `for`.
pub fn for_form(alloc: Global, head: TypedForHead, s: TypedStmt) -> Result<TypedStmt, AllocError>
    ensures { IfOk result
        (λ made. typed_stmt_view made ≡ Plain.For (typed_head_seen head) (typed_stmt_view s)) }
{
    let head = Boxed::new(alloc, head)?;
    Ok(TypedStmt::For(head, Boxed::new(alloc, s)?))
}

/// A `switch`.
pub fn switch_form(
    alloc: Global,
    e: TypedExpr,
    items: Items<TypedSwitchItem>,
) -> Result<TypedStmt, AllocError>
    ensures { IfOk result
        (λ made. typed_stmt_view made ≡ Plain.Switch (typed_expr_view e) (typed_items_seen items)) }
{
    Ok(TypedStmt::Switch(Boxed::new(alloc, e)?, items))
}
