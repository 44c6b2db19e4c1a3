//! Pieces of code that no expression stands in.

ghost use Rattle.std.specs.Prelude.{◌≡◌, ◌∷◌, Some, None, pos, OnOk};
ghost use Rattle.int_ops.specs.declared.types.IntType.TheVariants as type;
ghost use Rattle.c_tree.specs.TypedView.{typed_expr_view};
ghost use Rattle.stack_ops.specs.declared.operation.Op.TheVariants as op;
ghost use Rattle.c_lower.specs.Items.{Item, true_of, false_of, third_of, join_of, end_of, else_of, plainly};
ghost use Rattle.c_lower.specs.Items as items;
ghost use Rattle.c_lower.specs.Building.{Puts};

use crate::blocks::Blocks;
use crate::labels;
use crate::labels::Site;
use crate::named::Close;
use crate::operations::{
    are_same, cell_number, load_at, loads, named_on, operator, stores, type_in,
};
use c_tree::{Base, Callee, CellAt, TypedExpr, TypedKind};
use int_ops::{BinOp, IntType};
use stack_ops::Op;
use std::alloc::AllocError;

/// A number.
pub fn push(out: &mut Blocks, number: i128, line: Option<u32>) -> Result<(), AllocError>
    ensures { OnOk result (Puts out.old out.new (λ rest. Item.Do (op.Push number) line ∷ rest)) }
{
    out.put(Op::Push(number), line)
}

/// A conversion, where the two types differ.
pub fn convert(out: &mut Blocks, from: IntType, to: IntType) -> Result<(), AllocError>
    ensures { OnOk result (Puts out.old out.new (λ rest. items.converted from to rest)) }
{
    if are_same(from, to) {
        return Ok(());
    }
    out.put(Op::Convert(to), None)
}

/// A value that nothing uses is dropped.
pub fn drop_value(out: &mut Blocks, base: Base) -> Result<(), AllocError>
    ensures { OnOk result (Puts out.old out.new (λ rest. items.dropped base rest)) }
{
    match base {
        Base::Int(_) => out.put(Op::Drop, None),
        Base::Void => Ok(()),
    }
}

/// A cast; to void it drops a value.
pub fn cast(out: &mut Blocks, from: Base, to: Base) -> Result<(), AllocError>
    ensures { OnOk result (Puts out.old out.new (λ rest. items.cast from to rest)) }
{
    match to {
        Base::Void => drop_value(out, from),
        Base::Int(t) => convert(out, type_in(from), t),
    }
}

/// The call of a function, whose arguments stand before it.
pub fn call(out: &mut Blocks, callee: Callee, line: u32, node: u32) -> Result<(), AllocError>
    ensures { OnOk result (Puts out.old out.new (λ rest. items.called callee line node rest)) }
{
    let next = labels::behind_call(node);
    match callee {
        Callee::Function(f) => {
            out.end(Close::CallTo(f, line, next), Some(line))?;
            out.begin(next, Some(line))
        }
        Callee::GetChar => out.put(Op::GetChar, Some(line)),
        Callee::PutChar => out.put(Op::PutChar(line), Some(line)),
        Callee::Exit => {
            out.end(Close::Quit, Some(line))?;
            out.begin(next, Some(line))
        }
    }
}

fn one(out: &mut Blocks, node: u32, line: u32) -> Result<(), AllocError>
    ensures { OnOk result (Puts out.old out.new (λ rest. Item.Begin (true_of node) (Some line) ∷
        Item.Do (op.Push (pos 1)) None ∷ Item.End (items.Close.Jump (join_of node)) None ∷ rest)) }
{
    out.begin(labels::when_true(node), Some(line))?;
    out.put(Op::Push(1), None)?;
    out.end(Close::Jump(labels::join(node)), None)
}

fn zero(out: &mut Blocks, node: u32, line: u32) -> Result<(), AllocError>
    ensures { OnOk result (Puts out.old out.new (λ rest. Item.Begin (false_of node) (Some line) ∷
        Item.Do (op.Push (pos 0)) None ∷ Item.Begin (join_of node) (Some line) ∷ rest)) }
{
    out.begin(labels::when_false(node), Some(line))?;
    out.put(Op::Push(0), None)?;
    out.begin(labels::join(node), Some(line))
}

/// The 1 or 0 of a condition, in blocks of its operator's line.
pub fn as_number(out: &mut Blocks, node: u32, line: u32) -> Result<(), AllocError>
    ensures { OnOk result (Puts out.old out.new (λ rest. Item.Begin (true_of node) (Some line) ∷
        Item.Do (op.Push (pos 1)) None ∷ Item.End (items.Close.Jump (join_of node)) None ∷
        Item.Begin (false_of node) (Some line) ∷ Item.Do (op.Push (pos 0)) None ∷ Item.Begin
        (join_of node) (Some line) ∷ rest)) }
{
    one(out, node, line)?;
    zero(out, node, line)
}

/// The second operand of `?:` ends, and the third begins.
pub fn third_choice(out: &mut Blocks, site: Site) -> Result<(), AllocError>
    ensures { OnOk result (Puts out.old out.new
        (λ rest. Item.End (items.Close.Jump (join_of site.node)) None ∷
        Item.Begin (third_of site.node) (Some site.line) ∷ rest)) }
{
    out.end(Close::Jump(labels::join(site.node)), None)?;
    out.begin(labels::third(site.node), Some(site.line))
}

/// The first part of an `if` ends, and the second begins.
pub fn else_part(out: &mut Blocks, node: u32) -> Result<(), AllocError>
    ensures { OnOk result (Puts out.old out.new
        (λ rest. Item.End (items.Close.Jump (end_of node)) None ∷
        Item.Begin (else_of node) None ∷ rest)) }
{
    out.end(Close::Jump(labels::end(node)), None)?;
    out.begin(labels::otherwise(node), None)
}

/// The check of an index against the length of its array.
pub fn check_index(out: &mut Blocks, length: u64, line: u32) -> Result<(), AllocError>
    ensures { OnOk result (Puts out.old out.new
        (λ rest. plainly (op.CheckIndex length line) rest)) }
{
    out.put(Op::CheckIndex(cell_number(length)?, line), None)
}

/// The element with an index, which is checked; the line of the array's name comes last.
pub fn element(
    out: &mut Blocks,
    cell: CellAt,
    length: u64,
    line: u32,
    named: u32,
) -> Result<(), AllocError>
    ensures { OnOk result (Puts out.old out.new (λ rest. plainly (op.CheckIndex length line)
        (Item.Do (items.load_at cell length) (Some named) ∷ rest))) }
{
    check_index(out, length, line)?;
    out.put(load_at(cell, length)?, Some(named))
}

/// An index is kept for the store behind the load.
pub fn keep(out: &mut Blocks, target: &TypedExpr) -> Result<(), AllocError>
    ensures { OnOk result (Puts out.old out.new (λ rest. items.kept (typed_expr_view target.now)
        rest)) }
{
    match &target.kind {
        TypedKind::Index(..) => out.put(Op::Dup, None),
        _ => Ok(()),
    }
}

/// The old value stays below what is computed; that of an element goes below its index too.
pub fn double(out: &mut Blocks, target: &TypedExpr) -> Result<(), AllocError>
    ensures { OnOk result (Puts out.old out.new (λ rest. items.doubled (typed_expr_view target.now)
        rest)) }
{
    match &target.kind {
        TypedKind::Index(..) => {
            out.put(Op::Swap, None)?;
            out.put(Op::Over, None)
        }
        _ => out.put(Op::Dup, None),
    }
}

fn load(out: &mut Blocks, target: &TypedExpr) -> Result<(), AllocError>
    ensures { OnOk result (Puts out.old out.new (λ rest. items.kept (typed_expr_view target.now)
        (Item.Do (items.loads (typed_expr_view target.now))
        (Some (items.named_on (typed_expr_view target.now))) ∷ rest))) }
{
    keep(out, target)?;
    out.put(loads(target)?, Some(named_on(target)))
}

/// The old value of what is changed, in the type in which it is changed.
pub fn fetch(
    out: &mut Blocks,
    target: &TypedExpr,
    from: IntType,
    to: IntType,
) -> Result<(), AllocError>
    ensures { OnOk result (Puts out.old out.new (λ rest. items.kept (typed_expr_view target.now)
        (Item.Do (items.loads (typed_expr_view target.now))
        (Some (items.named_on (typed_expr_view target.now))) ∷ items.converted from to rest))) }
{
    load(out, target)?;
    convert(out, from, to)
}

/// The same, where the old value is what the expression gives.
pub fn fetch_twice(
    out: &mut Blocks,
    target: &TypedExpr,
    from: IntType,
    to: IntType,
) -> Result<(), AllocError>
    ensures { OnOk result (Puts out.old out.new (λ rest. items.kept (typed_expr_view target.now)
        (Item.Do (items.loads (typed_expr_view target.now))
        (Some (items.named_on (typed_expr_view target.now))) ∷ items.doubled
        (typed_expr_view target.now) (items.converted from to rest)))) }
{
    load(out, target)?;
    double(out, target)?;
    convert(out, from, to)
}

/// The operator on two operands of a type, converted back, and the store of what it gives.
pub fn change(
    out: &mut Blocks,
    op: BinOp,
    types: (IntType, IntType),
    line: u32,
    target: &TypedExpr,
) -> Result<(), AllocError>
    ensures { OnOk result (Puts out.old out.new (λ rest. plainly (items.operator op types.1 line)
        (items.converted types.1 types.0 (plainly (items.stores (typed_expr_view target.now))
        rest)))) }
{
    out.put(operator(op, types.1, line), None)?;
    convert(out, types.1, types.0)?;
    out.put(stores(target)?, None)
}
