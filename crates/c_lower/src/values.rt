//! Expressions for their values.

ghost use Rattle.std.specs.Prelude.{◌≡◌, ◌+◌, suc, OnOk, map};
ghost use Rattle.c_tree.specs.TypedParts.{base_of};
ghost use Rattle.c_tree.specs.TypedView.{typed_expr_view, typed_exprs_of};
ghost use Rattle.c_lower.specs.Items.{ways, nodes, all_nodes, all_values, dropped};
ghost use Rattle.c_lower.specs.Building.{Puts};

use crate::assignments::{assign, assign_with, step_after, step_before};
use crate::blocks::Blocks;
use crate::conditions::{choose, sides};
use crate::labels::{Site, if_both, if_either, take_node, truth};
use crate::operations::{load_op, operator, type_in};
use crate::pieces::{as_number, call, cast, convert, drop_value, element, push};
use c_tree::{TypedExpr, TypedKind};
use stack_ops::Op;
use std::alloc::AllocError;

/// An expression for its value.
#[cycle(value)]
pub fn value(out: &mut Blocks, next: &mut u32, e: &TypedExpr) -> Result<(), AllocError>
    ensures code { OnOk result (Puts out.old out.new
        (λ rest. (ways (typed_expr_view e.now) next.old).value rest)) }
    ensures next { OnOk result (next.new ≡ next.old + nodes (typed_expr_view e.now)) }
{
    match &e.kind {
        TypedKind::Name(cell) => {
            take_node(next)?;
            out.put(load_op(*cell)?, Some(e.line))
        }
        TypedKind::Number(number, _) => {
            take_node(next)?;
            push(out, *number, Some(e.line))
        }
        TypedKind::EofName => {
            take_node(next)?;
            out.put(Op::Push(-1), Some(e.line))
        }
        TypedKind::Call(callee, arguments) => {
            let node = take_node(next)?;
            values(out, next, arguments.as_slice())?;
            call(out, *callee, e.line, node)
        }
        TypedKind::Index(cell, length, _, named, index) => {
            inner(out, next, index.get())?;
            element(out, *cell, *length, e.line, *named)
        }
        TypedKind::Convert(part) => {
            inner(out, next, part.get())?;
            convert(out, type_in(part.get().base), type_in(e.base))
        }
        TypedKind::Plus(part) => inner(out, next, part.get()),
        TypedKind::Minus(part) => {
            inner(out, next, part.get())?;
            out.put(Op::Minus(type_in(e.base), e.line), None)
        }
        TypedKind::Complement(part) => {
            inner(out, next, part.get())?;
            out.put(Op::Complement(type_in(e.base), e.line), None)
        }
        TypedKind::Not(part) => {
            inner(out, next, part.get())?;
            out.put(Op::Not, None)
        }
        TypedKind::Cast(to, part) => {
            inner(out, next, part.get())?;
            cast(out, part.get().base, *to)
        }
        TypedKind::Binary(op, left, right) => {
            inner(out, next, left.get())?;
            value(out, next, right.get())?;
            out.put(operator(*op, type_in(left.get().base), e.line), None)
        }
        TypedKind::AndAlso(left, right) => {
            let site = Site::new(take_node(next)?, e.line);
            let to = truth(site.node);
            sides(
                out,
                next,
                site,
                left.get(),
                right.get(),
                if_both(site.node, to),
                to,
            )?;
            as_number(out, site.node, e.line)
        }
        TypedKind::OrElse(left, right) => {
            let site = Site::new(take_node(next)?, e.line);
            let to = truth(site.node);
            sides(
                out,
                next,
                site,
                left.get(),
                right.get(),
                if_either(site.node, to),
                to,
            )?;
            as_number(out, site.node, e.line)
        }
        TypedKind::Choose(condition, one, other) => {
            choose(out, next, e, condition.get(), one.get(), other.get())
        }
        TypedKind::Assign(None, target, part) => { assign(out, next, e, target.get(), part.get()) }
        TypedKind::Assign(Some(op), target, part) => {
            assign_with(out, next, e, *op, target.get(), part.get())
        }
        TypedKind::Before(op, target) => step_before(out, next, e, *op, target.get()),
        TypedKind::After(op, target) => step_after(out, next, e, *op, target.get()),
        TypedKind::Comma(left, right) => {
            inner(out, next, left.get())?;
            drop_value(out, left.get().base)?;
            value(out, next, right.get())
        }
    }
}

/// The first part of an expression, which stands behind its own node.
#[cycle(value)]
pub fn inner(out: &mut Blocks, next: &mut u32, part: &TypedExpr) -> Result<(), AllocError>
    ensures code { OnOk result (Puts out.old out.new
        (λ rest. (ways (typed_expr_view part.now) (suc next.old)).value rest)) }
    ensures next { OnOk result (next.new ≡ suc next.old + nodes (typed_expr_view part.now)) }
{
    take_node(next)?;
    value(out, next, part)
}

/// Values from left to right.
#[cycle(value)]
pub fn values(out: &mut Blocks, next: &mut u32, es: &[TypedExpr]) -> Result<(), AllocError>
    ensures code { OnOk result (Puts out.old out.new
        (λ rest. all_values (typed_exprs_of (map typed_expr_view es.now)) next.old rest)) }
    ensures next { OnOk result
        (next.new ≡ next.old + all_nodes (typed_exprs_of (map typed_expr_view es.now))) }
{
    for e in es {
        value(out, next, e)?;
    }
    Ok(())
}

/// An expression for its effect: its value is dropped.
pub fn effect(out: &mut Blocks, next: &mut u32, e: &TypedExpr) -> Result<(), AllocError>
    ensures code { OnOk result (Puts out.old out.new
        (λ rest. (ways (typed_expr_view e.now) next.old).value
        (dropped (base_of (typed_expr_view e.now)) rest))) }
    ensures next { OnOk result (next.new ≡ next.old + nodes (typed_expr_view e.now)) }
{
    value(out, next, e)?;
    drop_value(out, e.base)
}
