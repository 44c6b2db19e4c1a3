//! Expressions as conditions, with the blocks for nonzero and for zero.

ghost use Rattle.std.specs.Prelude.{◌≡◌, ◌+◌, ◌∷◌, suc, Some, OnOk};
ghost use Rattle.c_tree.specs.TypedExpr.{TypedKind as Form};
ghost use Rattle.c_tree.specs.TypedView.{typed_expr_view};
ghost use Rattle.c_lower.specs.Items.{Item, ways, kind_ways, nodes, kind_nodes, right_of};
ghost use Rattle.c_lower.specs.Building.{Puts};
ghost use Rattle.c_lower.specs.Conditions as conditions;

use crate::blocks::Blocks;
use crate::labels;
use crate::labels::{Site, Targets, if_both, if_either, take_node};
use crate::named::Close;
use crate::pieces::third_choice;
use crate::values::value;
use c_tree::{TypedExpr, TypedKind};
use std::alloc::AllocError;

fn is_condition(e: &TypedExpr) -> bool
    ensures { result ≡ conditions.is_condition (typed_expr_view e.now) }
{
    match &e.kind {
        TypedKind::Not(_) | TypedKind::AndAlso(..) | TypedKind::OrElse(..) => true,
        _ => false,
    }
}

/// An expression as a condition.
#[cycle(value)]
#[tactic(auto, using(crate::proofs::ConditionLaws::plain_test))]
pub fn test(out: &mut Blocks, next: &mut u32, e: &TypedExpr, to: Targets) -> Result<(), AllocError>
    ensures code { OnOk result (Puts out.old out.new
        (λ rest. (ways (typed_expr_view e.now) next.old).test to.one to.other rest)) }
    ensures next { OnOk result (next.new ≡ next.old + nodes (typed_expr_view e.now)) }
{
    if !is_condition(e) {
        value(out, next, e)?;
        return out.end(Close::Branch(to.one, to.other), None);
    }
    let site = Site::new(take_node(next)?, e.line);
    match &e.kind {
        TypedKind::AndAlso(left, right) => {
            let first = if_both(site.node, to);
            sides(out, next, site, left.get(), right.get(), first, to)
        }
        TypedKind::OrElse(left, right) => {
            let first = if_either(site.node, to);
            sides(out, next, site, left.get(), right.get(), first, to)
        }
        TypedKind::Not(part) => test(out, next, part.get(), to.turned()),
        _ => Err(AllocError),
    }
}

/// An expression as a condition, and the block for nonzero begins.
#[cycle(value)]
pub fn enter(
    out: &mut Blocks,
    next: &mut u32,
    e: &TypedExpr,
    to: Targets,
    line: Option<u32>,
) -> Result<(), AllocError>
    ensures code { OnOk result (Puts out.old out.new
        (λ rest. (ways (typed_expr_view e.now) next.old).test to.one to.other
        (Item.Begin to.one line ∷ rest))) }
    ensures next { OnOk result (next.new ≡ next.old + nodes (typed_expr_view e.now)) }
{
    let Targets { one, other } = to;
    test(out, next, e, Targets { one, other })?;
    out.begin(one, line)
}

/// The two sides of `&&` or `||`, with where each goes.
#[cycle(value)]
pub fn sides(
    out: &mut Blocks,
    next: &mut u32,
    site: Site,
    left: &TypedExpr,
    right: &TypedExpr,
    first: Targets,
    second: Targets,
) -> Result<(), AllocError>
    ensures code { OnOk result (Puts out.old out.new
        (λ rest. (ways (typed_expr_view left.now) next.old).test first.one first.other
        (Item.Begin (right_of site.node) (Some site.line) ∷
        (ways (typed_expr_view right.now)
        (next.old + nodes (typed_expr_view left.now))).test second.one second.other rest))) }
    ensures next { OnOk result (next.new ≡ next.old + (nodes (typed_expr_view left.now)
        + nodes (typed_expr_view right.now))) }
{
    test(out, next, left, first)?;
    out.begin(labels::right_side(site.node), Some(site.line))?;
    test(out, next, right, second)
}

/// The second or the third operand of `?:`, by the first one.
#[cycle(value)]
pub fn choose(
    out: &mut Blocks,
    next: &mut u32,
    e: &TypedExpr,
    condition: &TypedExpr,
    second: &TypedExpr,
    third: &TypedExpr,
) -> Result<(), AllocError>
    ensures code { OnOk result (Puts out.old out.new
        (λ rest. (kind_ways (Form.Choose (typed_expr_view condition.now)
        (typed_expr_view second.now) (typed_expr_view third.now))
        e.now.base e.now.line next.old).value rest)) }
    ensures next { OnOk result (next.new ≡ suc next.old + kind_nodes
        (Form.Choose (typed_expr_view condition.now) (typed_expr_view second.now)
        (typed_expr_view third.now))) }
{
    let site = Site::new(take_node(next)?, e.line);
    enter(
        out,
        next,
        condition,
        labels::choices(site.node),
        Some(site.line),
    )?;
    value(out, next, second)?;
    third_choice(out, site)?;
    value(out, next, third)?;
    out.begin(labels::join(site.node), Some(site.line))
}
