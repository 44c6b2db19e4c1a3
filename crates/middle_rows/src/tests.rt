//! What the tests share: one operation whose conditions are tested before it is done.

ghost use Rattle.std.specs.Prelude.{◌≡◌, ◌≤◌, length, All, IsTrue, IfOk, IfSome};
ghost use Rattle.int_ops.specs.Ranges.{IsNumber};
ghost use Rattle.stack_ops.specs.Shapes.{is_step, takes, gives, HasCells, HasNumber};

mod calls;
mod rows;

use int_ops::{IntType, greatest, least};
use stack_ops::{Op, OpStack, RunIo, Trap, step_op};
use std::alloc::Global;
use std::process::Abort;
use std::test::Fail;

/// How many operands an operation takes and gives.
#[derive(Drop)]
struct Shape {
    takes: usize,
    gives: usize,
}

fn made(takes: usize, gives: usize) -> Option<Shape>
    ensures { IfSome result (λ shape. shape ≡ record { takes = takes; gives = gives }) }
{
    Some(Shape { takes, gives })
}

/// The shape of an operation that is one step, whose number is one of the machine's.
fn shape_of(op: &Op) -> Option<Shape>
    ensures step { IfSome result (λ _. IsTrue (is_step op.now)) }
    ensures takes { IfSome result (λ shape. shape.takes ≡ takes op.now) }
    ensures gives { IfSome result (λ shape. shape.gives ≡ gives op.now) }
    ensures number { IfSome result (λ _. HasNumber op.now) }
{
    match *op {
        Op::Push(n) => {
            if n < least(IntType::Long) {
                return None;
            }
            if n > greatest(IntType::UnsignedLong) {
                return None;
            }
            made(0, 1)
        }
        Op::Dup => made(1, 2),
        Op::Drop => made(1, 0),
        Op::Swap => made(2, 2),
        Op::Over => made(2, 3),
        Op::LoadLocal(_) | Op::LoadGlobal(_) | Op::GetChar => made(0, 1),
        Op::StoreLocal(_) | Op::StoreGlobal(_) | Op::Convert(_) | Op::Not => made(1, 1),
        Op::CheckIndex(..) | Op::LoadLocalAt(..) | Op::LoadGlobalAt(..) => made(1, 1),
        Op::Minus(..) | Op::Complement(..) | Op::PutChar(_) => made(1, 1),
        Op::Jump(_) | Op::Back(_) | Op::IfZero(_) | Op::IfNot(_) | Op::CaseJump(..) => None,
        Op::Call(..) | Op::Return | Op::Exit => None,
        Op::Count(_) | Op::PathBegin | Op::PathPass(_) => None,
        _ => made(2, 1),
    }
}

/// The cells and globals that the operation names are there.
fn has_cells(op: &Op, locals: &[i128], globals: &[i128]) -> bool
    ensures { IsTrue result → HasCells op.now locals.now globals.now }
{
    match *op {
        Op::LoadLocal(w) => (w as usize) < locals.len(),
        Op::StoreLocal(w) => (w as usize) < locals.len(),
        Op::LoadGlobal(w) => (w as usize) < globals.len(),
        Op::StoreGlobal(w) => (w as usize) < globals.len(),
        Op::LoadLocalAt(base, size) => base as usize + size as usize <= locals.len(),
        Op::StoreLocalAt(base, size) => base as usize + size as usize <= locals.len(),
        Op::LoadGlobalAt(base, size) => base as usize + size as usize <= globals.len(),
        Op::StoreGlobalAt(base, size) => base as usize + size as usize <= globals.len(),
        _ => true,
    }
}

/// Each number is one of the machine's.
fn are_numbers(numbers: &[i128]) -> bool
    ensures { IsTrue result → All IsNumber numbers.now }
{
    for n in numbers {
        if *n < least(IntType::Long) {
            return false;
        }
        if *n > greatest(IntType::UnsignedLong) {
            return false;
        }
    }
    true
}

/// A stack of these numbers, with room for eight.
fn stack_of(alloc: Global, numbers: &[i128]) -> Result<OpStack, Fail>
    requires { length numbers.now ≤ 5 }
    ensures numbers { IfOk result (λ stack. stack.numbers ≡ numbers.now) }
    ensures room { IfOk result (λ stack. stack.room ≡ 8) }
{
    let mut stack = OpStack::with_room(alloc, 8)?;
    for n in numbers {
        stack.push(*n);
    }
    Ok(stack)
}

/// Does an operation on these operands; tells its answer and the stack after it.
fn step_on(
    rt: &impl Abort,
    alloc: Global,
    op: &Op,
    numbers: &[i128],
    locals: &mut [i128],
    globals: &mut [i128],
    io: &mut RunIo,
) -> Result<(Result<(), (Trap, u32)>, OpStack), Fail> {
    let Some(shape) = shape_of(op) else {
        return Err(Fail::from("not one step"));
    };
    assert!(rt; shape.takes <= numbers.len());
    assert!(rt; shape.gives <= 3);
    assert!(rt; numbers.len() <= 5);
    assert!(rt; has_cells(op, locals, globals));
    assert!(rt; are_numbers(numbers));
    assert!(rt; are_numbers(locals));
    assert!(rt; are_numbers(globals));
    let mut stack = stack_of(alloc, numbers)?;
    let answer = step_op(op, &mut stack, locals, globals, io);
    Ok((answer, stack))
}
