//! Constant expressions and their values.

ghost use Rattle.std.specs.Prelude.{◌≡◌, IfSome};
ghost use Rattle.int_ops.specs.Ranges.{IsNumber};
ghost use Rattle.int_ops.specs.Apply.{binary, unary};
ghost use Rattle.c_tree.specs.TypedView.{typed_expr_view};
ghost use Rattle.c_typing.specs.Constants as spec;

use crate::forms::number_type;
use c_tree::{Base, TypedExpr, TypedKind};
use int_ops::{BinOp, IntType, UnOp, binary, convert, unary};

/// Whether the expression is built of what a constant expression may be built of.
fn is_constant(e: &TypedExpr) -> bool
    ensures { result ≡ spec.is_constant (typed_expr_view e.now) }
{
    match &e.kind {
        TypedKind::Number(..) | TypedKind::EofName => true,
        TypedKind::Convert(e)
        | TypedKind::Plus(e)
        | TypedKind::Minus(e)
        | TypedKind::Complement(e)
        | TypedKind::Not(e)
        | TypedKind::Cast(Base::Int(_), e) => is_constant(e.get()),
        TypedKind::Binary(_, l, r) | TypedKind::AndAlso(l, r) | TypedKind::OrElse(l, r) => {
            is_constant(l.get()) && is_constant(r.get())
        }
        TypedKind::Choose(c, x, y) => {
            is_constant(c.get()) && is_constant(x.get()) && is_constant(y.get())
        }
        TypedKind::Name(_)
        | TypedKind::Call(..)
        | TypedKind::Index(..)
        | TypedKind::Cast(Base::Void, _)
        | TypedKind::Assign(..)
        | TypedKind::Before(..)
        | TypedKind::After(..)
        | TypedKind::Comma(..) => false,
    }
}

/// 1 for a number that isn't 0, else 0.
fn truth_of(n: i128) -> i128
    ensures value { result ≡ spec.truth_of n }
    ensures number { IsNumber result }
{
    if n == 0 { 0 } else { 1 }
}

/// What an operator with one operand gives, where it doesn't trap.
fn by_one(op: UnOp, t: IntType, a: i128) -> Option<i128>
    requires { IsNumber a }
    ensures value { result ≡ spec.untrapped (unary op t a) }
    ensures number { IfSome result IsNumber }
{
    unary(op, t, a).ok()
}

/// What an operator with two operands gives, where it doesn't trap.
fn by_two(op: BinOp, t: IntType, a: i128, b: i128) -> Option<i128>
    requires left { IsNumber a }
    requires right { IsNumber b }
    ensures value { result ≡ spec.untrapped (binary op t a b) }
    ensures number { IfSome result IsNumber }
{
    binary(op, t, a, b).ok()
}

/// The value of a constant expression, or none where an operand traps that is evaluated.
fn worth(e: &TypedExpr) -> Option<i128>
    ensures value { result ≡ spec.worth (typed_expr_view e.now) }
    ensures number { IfSome result IsNumber }
{
    let t = number_type(e.base);
    match &e.kind {
        TypedKind::Number(n, u) => Some(convert(*u, *n)),
        TypedKind::EofName => Some(-1),
        TypedKind::Convert(a) | TypedKind::Cast(_, a) => Some(convert(t, worth(a.get())?)),
        TypedKind::Plus(a) => worth(a.get()),
        TypedKind::Minus(a) => by_one(UnOp::Minus, t, worth(a.get())?),
        TypedKind::Complement(a) => by_one(UnOp::Complement, t, worth(a.get())?),
        TypedKind::Not(a) => Some(1 - truth_of(worth(a.get())?)),
        TypedKind::Binary(op, l, r) => {
            let a = worth(l.get())?;
            let b = worth(r.get())?;
            by_two(*op, number_type(l.get().base), a, b)
        }
        TypedKind::AndAlso(l, r) => {
            if worth(l.get())? == 0 {
                return Some(0);
            }
            Some(truth_of(worth(r.get())?))
        }
        TypedKind::OrElse(l, r) => {
            if worth(l.get())? == 0 {
                return Some(truth_of(worth(r.get())?));
            }
            Some(1)
        }
        TypedKind::Choose(c, x, y) => {
            if worth(c.get())? == 0 {
                return worth(y.get());
            }
            worth(x.get())
        }
        TypedKind::Name(_)
        | TypedKind::Call(..)
        | TypedKind::Index(..)
        | TypedKind::Assign(..)
        | TypedKind::Before(..)
        | TypedKind::After(..)
        | TypedKind::Comma(..) => None,
    }
}

/// The value of an expression, where it is constant and doesn't trap.
pub fn constant(e: &TypedExpr) -> Option<i128>
    ensures value { result ≡ spec.constant (typed_expr_view e.now) }
    ensures number { IfSome result IsNumber }
{
    if is_constant(e) { worth(e) } else { None }
}
