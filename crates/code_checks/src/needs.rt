//! What instructions need.

ghost use Rattle.std.specs.Prelude.{◌≡◌, ◌+◌, nat_le, length};
ghost use Rattle.code_runs.specs.Checks as spec;

use stack_ops::{Code, FunctionCode, Op};

/// So many elements from a cell on are among these.
fn are_among(base: u32, size: u32, cells: u64) -> bool
    ensures { result ≡ nat_le (base + size) cells }
{
    u64::from(base) + u64::from(size) <= cells
}

/// How many globals the code has.
fn globals_in(code: &Code) -> u64
    ensures { result ≡ length code.now.globals }
{
    code.globals.len() as u64
}

/// The cells and globals of the operation are in range, and the function that it calls is there.
pub fn cells_there(code: &Code, function: &FunctionCode, op: &Op) -> bool
    ensures { result ≡ spec.cells_there code.now function.now op.now }
{
    match *op {
        Op::LoadLocal(w) => w < function.cells,
        Op::StoreLocal(w) => w < function.cells,
        Op::LoadGlobal(w) => u64::from(w) < globals_in(code),
        Op::StoreGlobal(w) => u64::from(w) < globals_in(code),
        Op::LoadLocalAt(base, size) => are_among(base, size, u64::from(function.cells)),
        Op::StoreLocalAt(base, size) => are_among(base, size, u64::from(function.cells)),
        Op::LoadGlobalAt(base, size) => are_among(base, size, globals_in(code)),
        Op::StoreGlobalAt(base, size) => are_among(base, size, globals_in(code)),
        Op::Call(called, _) => (called as usize) < code.functions.len(),
        _ => true,
    }
}

/// The counter of the operation is one of the function's.
pub fn counter_there(function: &FunctionCode, op: &Op) -> bool
    ensures { result ≡ spec.counter_there function.now op.now }
{
    match *op {
        Op::Count(counter) => counter < function.counters,
        _ => true,
    }
}

/// The function has paths, and the row of the operation is one of the function's.
pub fn row_there(function: &FunctionCode, op: &Op) -> bool
    ensures { result ≡ spec.row_there function.now op.now }
{
    match *op {
        Op::PathBegin => 0 < function.paths,
        Op::PathPass(row) => 0 < function.paths && row < function.passes,
        _ => true,
    }
}
