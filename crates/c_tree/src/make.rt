//! Makers of expressions: each takes the parts and says what the definitions see.

ghost use Rattle.std.specs.Prelude.{◌≡◌, IfOk, map};
ghost use Rattle.c_tree.specs.Expr.{Kind};
ghost use Rattle.c_tree.specs.TreeView.{kind_view, expr_view, exprs_of};

use crate::expr::{Base, Expr, ExprKind};
use crate::ident::Ident;
use int_ops::BinOp;
use sqlite_items::{Boxed, Items};
use std::alloc::{AllocError, Global};

/// `(` operand `)`
pub fn paren(alloc: Global, operand: Expr) -> Result<ExprKind, AllocError>
    ensures { IfOk result (λ k. kind_view k ≡ Kind.Paren (expr_view operand)) }
{
    Ok(ExprKind::Paren(Boxed::new(alloc, operand)?))
}

/// A call of this name with these arguments.
pub fn call(name: Ident, args: Items<Expr>) -> ExprKind
    ensures { kind_view result ≡ Kind.Call name (exprs_of (map expr_view args)) }
{
    ExprKind::Call(name, args)
}

/// An element of the array of this name, which has this place and line; the operand is the index.
pub fn index(
    alloc: Global,
    name: Ident,
    place: u32,
    line: u32,
    operand: Expr,
) -> Result<ExprKind, AllocError>
    ensures { IfOk result (λ k. kind_view k ≡ Kind.Index name place line (expr_view operand)) }
{
    Ok(ExprKind::Index(name, place, line, Boxed::new(alloc, operand)?))
}

/// `+` operand
pub fn plus(alloc: Global, operand: Expr) -> Result<ExprKind, AllocError>
    ensures { IfOk result (λ k. kind_view k ≡ Kind.Plus (expr_view operand)) }
{
    Ok(ExprKind::Plus(Boxed::new(alloc, operand)?))
}

/// `-` operand
pub fn minus(alloc: Global, operand: Expr) -> Result<ExprKind, AllocError>
    ensures { IfOk result (λ k. kind_view k ≡ Kind.Minus (expr_view operand)) }
{
    Ok(ExprKind::Minus(Boxed::new(alloc, operand)?))
}

/// `~` operand
pub fn complement(alloc: Global, operand: Expr) -> Result<ExprKind, AllocError>
    ensures { IfOk result (λ k. kind_view k ≡ Kind.Complement (expr_view operand)) }
{
    Ok(ExprKind::Complement(Boxed::new(alloc, operand)?))
}

/// `!` operand
pub fn not(alloc: Global, operand: Expr) -> Result<ExprKind, AllocError>
    ensures { IfOk result (λ k. kind_view k ≡ Kind.Not (expr_view operand)) }
{
    Ok(ExprKind::Not(Boxed::new(alloc, operand)?))
}

/// `(` base `)` operand
pub fn cast(alloc: Global, base: Base, operand: Expr) -> Result<ExprKind, AllocError>
    ensures { IfOk result (λ k. kind_view k ≡ Kind.Cast base (expr_view operand)) }
{
    Ok(ExprKind::Cast(base, Boxed::new(alloc, operand)?))
}

/// left op right
pub fn binary(alloc: Global, op: BinOp, left: Expr, right: Expr) -> Result<ExprKind, AllocError>
    ensures { IfOk result (λ k. kind_view k ≡ Kind.Binary op (expr_view left) (expr_view right)) }
{
    let left = Boxed::new(alloc, left)?;
    Ok(ExprKind::Binary(op, left, Boxed::new(alloc, right)?))
}

/// left `&&` right
pub fn and_also(alloc: Global, left: Expr, right: Expr) -> Result<ExprKind, AllocError>
    ensures { IfOk result (λ k. kind_view k ≡ Kind.AndAlso (expr_view left) (expr_view right)) }
{
    let left = Boxed::new(alloc, left)?;
    Ok(ExprKind::AndAlso(left, Boxed::new(alloc, right)?))
}

/// left `||` right
pub fn or_else(alloc: Global, left: Expr, right: Expr) -> Result<ExprKind, AllocError>
    ensures { IfOk result (λ k. kind_view k ≡ Kind.OrElse (expr_view left) (expr_view right)) }
{
    let left = Boxed::new(alloc, left)?;
    Ok(ExprKind::OrElse(left, Boxed::new(alloc, right)?))
}

/// test `?` first `:` second
pub fn choose(alloc: Global, test: Expr, first: Expr, second: Expr) -> Result<ExprKind, AllocError>
    ensures { IfOk result (λ k. kind_view k
        ≡ Kind.Choose (expr_view test) (expr_view first) (expr_view second)) }
{
    let test = Boxed::new(alloc, test)?;
    let first = Boxed::new(alloc, first)?;
    Ok(ExprKind::Choose(test, first, Boxed::new(alloc, second)?))
}

/// left `=` right, or with an operator as in `+=`
pub fn assign(
    alloc: Global,
    op: Option<BinOp>,
    left: Expr,
    right: Expr,
) -> Result<ExprKind, AllocError>
    ensures { IfOk result (λ k. kind_view k ≡ Kind.Assign op (expr_view left) (expr_view right)) }
{
    let left = Boxed::new(alloc, left)?;
    Ok(ExprKind::Assign(op, left, Boxed::new(alloc, right)?))
}

/// `++` operand or `--` operand
pub fn before(alloc: Global, op: BinOp, operand: Expr) -> Result<ExprKind, AllocError>
    ensures { IfOk result (λ k. kind_view k ≡ Kind.Before op (expr_view operand)) }
{
    Ok(ExprKind::Before(op, Boxed::new(alloc, operand)?))
}

/// operand `++` or operand `--`
pub fn after(alloc: Global, op: BinOp, operand: Expr) -> Result<ExprKind, AllocError>
    ensures { IfOk result (λ k. kind_view k ≡ Kind.After op (expr_view operand)) }
{
    Ok(ExprKind::After(op, Boxed::new(alloc, operand)?))
}

/// left `,` right
pub fn comma(alloc: Global, left: Expr, right: Expr) -> Result<ExprKind, AllocError>
    ensures { IfOk result (λ k. kind_view k ≡ Kind.Comma (expr_view left) (expr_view right)) }
{
    let left = Boxed::new(alloc, left)?;
    Ok(ExprKind::Comma(left, Boxed::new(alloc, right)?))
}
