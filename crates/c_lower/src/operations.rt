//! Which operation a form of the tree takes.

ghost use Rattle.std.specs.Prelude.{◌≡◌, ◌==◌, IfOk};
ghost use Rattle.int_ops.specs.Codes.{type_code};
ghost use Rattle.c_tree.specs.TypedParts.{class};
ghost use Rattle.c_tree.specs.TypedView.{typed_expr_view};
ghost use Rattle.c_meaning.specs.Operands as operands;
ghost use Rattle.c_lower.specs.Items as items;

use c_tree::{Base, CellAt, TypedExpr, TypedKind};
use int_ops::{BinOp, IntType, promoted};
use stack_ops::Op;
use std::alloc::AllocError;

/// The number of a cell, or of cells, where it has 32 bits: a frame and the globals have no more.
pub fn cell_number(cell: u64) -> Result<u32, AllocError>
    ensures { IfOk result (λ n. n ≡ cell) }
{
    if cell > u32::MAX as u64 {
        return Err(AllocError);
    }
    Ok(cell as u32)
}

/// Loads the cell.
pub fn load_op(cell: CellAt) -> Result<Op, AllocError>
    ensures { IfOk result (λ o. o ≡ items.load_op cell) }
{
    match cell {
        CellAt::Local(c) => Ok(Op::LoadLocal(cell_number(c)?)),
        CellAt::Global(c) => Ok(Op::LoadGlobal(cell_number(c)?)),
    }
}

/// Stores into the cell.
pub fn store_op(cell: CellAt) -> Result<Op, AllocError>
    ensures { IfOk result (λ o. o ≡ items.store_op cell) }
{
    match cell {
        CellAt::Local(c) => Ok(Op::StoreLocal(cell_number(c)?)),
        CellAt::Global(c) => Ok(Op::StoreGlobal(cell_number(c)?)),
    }
}

/// Loads an element of the array with this first cell and length.
pub fn load_at(cell: CellAt, length: u64) -> Result<Op, AllocError>
    ensures { IfOk result (λ o. o ≡ items.load_at cell length) }
{
    let length = cell_number(length)?;
    match cell {
        CellAt::Local(c) => Ok(Op::LoadLocalAt(cell_number(c)?, length)),
        CellAt::Global(c) => Ok(Op::LoadGlobalAt(cell_number(c)?, length)),
    }
}

/// Stores into an element of the array.
pub fn store_at(cell: CellAt, length: u64) -> Result<Op, AllocError>
    ensures { IfOk result (λ o. o ≡ items.store_at cell length) }
{
    let length = cell_number(length)?;
    match cell {
        CellAt::Local(c) => Ok(Op::StoreLocalAt(cell_number(c)?, length)),
        CellAt::Global(c) => Ok(Op::StoreGlobalAt(cell_number(c)?, length)),
    }
}

/// The operation of an operator, which takes its operands in the type and traps at the line.
pub fn operator(op: BinOp, t: IntType, line: u32) -> Op
    ensures { result ≡ items.operator op t line }
{
    match op {
        BinOp::Mul => Op::Mul(t, line),
        BinOp::Div => Op::Div(t, line),
        BinOp::Rem => Op::Rem(t, line),
        BinOp::Add => Op::Add(t, line),
        BinOp::Sub => Op::Sub(t, line),
        BinOp::Shl => Op::Shl(t, line),
        BinOp::Shr => Op::Shr(t, line),
        BinOp::Less => Op::Less(t, line),
        BinOp::Greater => Op::Greater(t, line),
        BinOp::LessEqual => Op::LessEqual(t, line),
        BinOp::GreaterEqual => Op::GreaterEqual(t, line),
        BinOp::Equal => Op::Equal(t, line),
        BinOp::NotEqual => Op::NotEqual(t, line),
        BinOp::And => Op::And(t, line),
        BinOp::Xor => Op::Xor(t, line),
        BinOp::Or => Op::Or(t, line),
    }
}

/// The type of a value; `int` where there is none.
pub fn type_in(base: Base) -> IntType
    ensures { result ≡ operands.type_in base }
{
    match base {
        Base::Int(t) => t,
        Base::Void => IntType::Int,
    }
}

/// The type in which an operator changes a variable of the first type by a value of the second.
pub fn changing(op: BinOp, variable: IntType, value: IntType) -> IntType
    ensures { result ≡ operands.changing (class op) variable value }
{
    match op {
        BinOp::Shl | BinOp::Shr => promoted(variable),
        _ => value,
    }
}

/// Two types are the same.
pub fn are_same(a: IntType, b: IntType) -> bool
    ensures { result ≡ (type_code a == type_code b) }
{
    a.code() == b.code()
}

/// The operation that loads what the form names; `Drop` where it names no cell.
pub fn loads(target: &TypedExpr) -> Result<Op, AllocError>
    ensures { IfOk result (λ o. o ≡ items.loads (typed_expr_view target.now)) }
{
    match &target.kind {
        TypedKind::Index(cell, length, ..) => load_at(*cell, *length),
        TypedKind::Name(cell) => load_op(*cell),
        _ => Ok(Op::Drop),
    }
}

/// The operation that stores into what the form names; `Drop` where it names no cell.
pub fn stores(target: &TypedExpr) -> Result<Op, AllocError>
    ensures { IfOk result (λ o. o ≡ items.stores (typed_expr_view target.now)) }
{
    match &target.kind {
        TypedKind::Index(cell, length, ..) => store_at(*cell, *length),
        TypedKind::Name(cell) => store_op(*cell),
        _ => Ok(Op::Drop),
    }
}

/// The line of the name in the form.
pub fn named_on(target: &TypedExpr) -> u32
    ensures { result ≡ items.named_on (typed_expr_view target.now) }
{
    match &target.kind {
        TypedKind::Index(_, _, _, named, _) => *named,
        _ => target.line,
    }
}
