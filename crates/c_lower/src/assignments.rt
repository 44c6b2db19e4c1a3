//! Assignments and steps: what is assigned to is reached first.

ghost use Rattle.std.specs.Prelude.{◌≡◌, ◌+◌, suc, Some, None, OnOk};
ghost use Rattle.c_tree.specs.TypedExpr.{TypedKind as Form};
ghost use Rattle.c_tree.specs.TypedView.{typed_expr_view};
ghost use Rattle.c_lower.specs.Items.{kind_ways, nodes, kind_nodes, index_of};
ghost use Rattle.c_lower.specs.Building.{Puts};

use crate::blocks::Blocks;
use crate::labels::take_node;
use crate::operations::{changing, named_on, stores, type_in};
use crate::pieces::{change, check_index, fetch, fetch_twice};
use crate::values::{inner, value};
use c_tree::{TypedExpr, TypedKind};
use int_ops::{BinOp, IntType, common_type};
use stack_ops::Op;
use std::alloc::AllocError;

/// The index of what is assigned to, checked. A name has none, and no other form is assigned to;
/// the nodes of such a form are counted.
#[cycle(value)]
fn reach(out: &mut Blocks, next: &mut u32, target: &TypedExpr) -> Result<(), AllocError>
    ensures code { OnOk result (Puts out.old out.new
        (λ rest. index_of (typed_expr_view target.now) next.old rest)) }
    ensures next { OnOk result (next.new ≡ next.old + nodes (typed_expr_view target.now)) }
{
    match &target.kind {
        TypedKind::Index(_, length, _, _, index) => {
            inner(out, next, index.get())?;
            check_index(out, *length, target.line)
        }
        TypedKind::Name(_) => {
            take_node(next)?;
            Ok(())
        }
        _ => value(&mut out.apart(), next, target),
    }
}

/// A value that is stored.
#[cycle(value)]
pub fn assign(
    out: &mut Blocks,
    next: &mut u32,
    e: &TypedExpr,
    target: &TypedExpr,
    part: &TypedExpr,
) -> Result<(), AllocError>
    ensures code { OnOk result (Puts out.old out.new
        (λ rest. (kind_ways (Form.Assign None (typed_expr_view target.now)
        (typed_expr_view part.now)) e.now.base e.now.line next.old).value rest)) }
    ensures next { OnOk result (next.new ≡ suc next.old + kind_nodes
        (Form.Assign None (typed_expr_view target.now) (typed_expr_view part.now))) }
{
    take_node(next)?;
    reach(out, next, target)?;
    value(out, next, part)?;
    out.put(stores(target)?, Some(named_on(target)))
}

/// An operator on the old value and another one; what it gives is stored.
#[cycle(value)]
pub fn assign_with(
    out: &mut Blocks,
    next: &mut u32,
    e: &TypedExpr,
    op: BinOp,
    target: &TypedExpr,
    part: &TypedExpr,
) -> Result<(), AllocError>
    ensures code { OnOk result (Puts out.old out.new
        (λ rest. (kind_ways (Form.Assign (Some op) (typed_expr_view target.now)
        (typed_expr_view part.now)) e.now.base e.now.line next.old).value rest)) }
    ensures next { OnOk result (next.new ≡ suc next.old + kind_nodes
        (Form.Assign (Some op) (typed_expr_view target.now) (typed_expr_view part.now))) }
{
    let held = type_in(e.base);
    let wide = changing(op, held, type_in(part.base));
    take_node(next)?;
    reach(out, next, target)?;
    fetch(out, target, held, wide)?;
    value(out, next, part)?;
    change(out, op, (held, wide), e.line, target)
}

/// A step by 1, which gives the new value.
#[cycle(value)]
pub fn step_before(
    out: &mut Blocks,
    next: &mut u32,
    e: &TypedExpr,
    op: BinOp,
    target: &TypedExpr,
) -> Result<(), AllocError>
    ensures code { OnOk result (Puts out.old out.new
        (λ rest. (kind_ways (Form.Before op (typed_expr_view target.now))
        e.now.base e.now.line next.old).value rest)) }
    ensures next { OnOk result
        (next.new ≡ suc next.old + kind_nodes (Form.Before op (typed_expr_view target.now))) }
{
    let held = type_in(e.base);
    let wide = common_type(held, IntType::Int);
    take_node(next)?;
    reach(out, next, target)?;
    fetch(out, target, held, wide)?;
    out.put(Op::Push(1), None)?;
    change(out, op, (held, wide), e.line, target)
}

/// A step by 1, which gives the old value.
#[cycle(value)]
pub fn step_after(
    out: &mut Blocks,
    next: &mut u32,
    e: &TypedExpr,
    op: BinOp,
    target: &TypedExpr,
) -> Result<(), AllocError>
    ensures code { OnOk result (Puts out.old out.new
        (λ rest. (kind_ways (Form.After op (typed_expr_view target.now))
        e.now.base e.now.line next.old).value rest)) }
    ensures next { OnOk result
        (next.new ≡ suc next.old + kind_nodes (Form.After op (typed_expr_view target.now))) }
{
    let held = type_in(e.base);
    let wide = common_type(held, IntType::Int);
    take_node(next)?;
    reach(out, next, target)?;
    fetch_twice(out, target, held, wide)?;
    out.put(Op::Push(1), None)?;
    change(out, op, (held, wide), e.line, target)?;
    out.put(Op::Drop, None)
}
