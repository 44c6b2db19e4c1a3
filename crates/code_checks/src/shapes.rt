//! How many operands operations take and give.

ghost use Rattle.std.specs.Prelude.{◌≡◌, ◌≤◌, slice_get};
ghost use Rattle.stack_ops.specs.Shapes as spec;
ghost use Rattle.code_runs.specs.Checks as rule;

use stack_ops::{FunctionCode, Op};

/// How many operands the operation takes; what Call and Return take isn't counted.
fn takes(op: &Op) -> u32
    ensures { result ≡ spec.takes op.now }
{
    match *op {
        Op::Push(_) | Op::LoadLocal(_) | Op::LoadGlobal(_) | Op::GetChar => 0,
        Op::Jump(_) | Op::Back(_) | Op::Call(_, _) | Op::Return => 0,
        Op::Count(_) | Op::PathBegin | Op::PathPass(_) => 0,
        Op::Dup | Op::Drop | Op::Convert(_) | Op::Not | Op::StoreLocal(_) => 1,
        Op::StoreGlobal(_) | Op::CheckIndex(_, _) | Op::LoadLocalAt(_, _) => 1,
        Op::LoadGlobalAt(_, _) | Op::Minus(_, _) | Op::Complement(_, _) | Op::PutChar(_) => 1,
        Op::IfZero(_) | Op::IfNot(_) | Op::CaseJump(_, _) | Op::Exit => 1,
        _ => 2,
    }
}

/// How many operands the operation gives; what Call gives isn't counted.
fn gives(op: &Op) -> u32
    ensures value { result ≡ spec.gives op.now }
    ensures few { result ≤ 3 }
{
    match *op {
        Op::Drop | Op::Jump(_) | Op::Back(_) | Op::IfZero(_) | Op::IfNot(_) => 0,
        Op::Call(_, _) | Op::Return | Op::Exit => 0,
        Op::Count(_) | Op::PathBegin | Op::PathPass(_) => 0,
        Op::Dup | Op::Swap => 2,
        Op::Over => 3,
        _ => 1,
    }
}

/// One operand where the function gives a number, and otherwise none.
fn given_by(function: &FunctionCode) -> u32
    ensures value { result ≡ spec.given_by function.now }
    ensures few { result ≤ 1 }
{
    function.gives as u32
}

/// How many operands a call of this function takes.
fn called_takes(functions: &[FunctionCode], called: u32) -> u32
    ensures { result ≡ spec.called_takes (slice_get functions.now called) }
{
    match functions.get(called as usize) {
        Some(function) => function.params,
        None => 0,
    }
}

/// How many operands a call of this function gives.
fn called_gives(functions: &[FunctionCode], called: u32) -> u32
    ensures value { result ≡ spec.called_gives (slice_get functions.now called) }
    ensures few { result ≤ 1 }
{
    match functions.get(called as usize) {
        Some(function) => given_by(function),
        None => 0,
    }
}

/// How many operands the operation takes in the function.
pub fn takes_in(functions: &[FunctionCode], function: &FunctionCode, op: &Op) -> u32
    ensures { result ≡ spec.takes_in functions.now function.now op.now }
{
    match *op {
        Op::Call(called, _) => called_takes(functions, called),
        Op::Return => given_by(function),
        _ => takes(op),
    }
}

/// How many operands the operation gives there.
fn gives_in(functions: &[FunctionCode], op: &Op) -> u32
    ensures value { result ≡ spec.gives_in functions.now op.now }
    ensures few { result ≤ 3 }
{
    match *op {
        Op::Call(called, _) => called_gives(functions, called),
        _ => gives(op),
    }
}

/// How many operands are left behind the operation, if there were so many.
pub fn behind(functions: &[FunctionCode], function: &FunctionCode, op: &Op, depth: u32) -> u64
    ensures { result ≡ rule.behind functions.now function.now op.now depth }
{
    let taken = takes_in(functions, function, op);
    u64::from(depth.saturating_sub(taken)) + u64::from(gives_in(functions, op))
}

/// Return has just the number that the function gives, or none.
pub fn returns_well(function: &FunctionCode, op: &Op, depth: u32) -> bool
    ensures { result ≡ rule.returns_well function.now op.now depth }
{
    match *op {
        Op::Return => depth == given_by(function),
        _ => true,
    }
}
