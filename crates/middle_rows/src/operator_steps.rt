//! Operators by way of the stack machine.

ghost use Rattle.std.specs.Prelude.{◌≡◌, [], ◌∷◌, length, All, IfOk};
ghost use Rattle.int_ops.specs.Apply.{binary};
ghost use Rattle.int_ops.specs.Ranges.{IsNumber};
ghost use Rattle.stack_ops.specs.Stack.{operands};
ghost use Rattle.middle_rows.specs.OperatorSteps as spec;
ghost use Rattle.middle_rows.specs.OperatorSteps.{with_its_trap};

use cov_base::NoMemory;
use int_ops::{BinOp, IntType};
use stack_ops::{Op, OpStack, RunIo, Trap, step_op};
use std::alloc::Global;

/// The operation of an operator at a type. Its trap has line 0, since no source names one.
fn operation(op: BinOp, t: IntType) -> Op
    ensures { result ≡ spec.operation op t }
{
    match op {
        BinOp::Mul => Op::Mul(t, 0),
        BinOp::Div => Op::Div(t, 0),
        BinOp::Rem => Op::Rem(t, 0),
        BinOp::Add => Op::Add(t, 0),
        BinOp::Sub => Op::Sub(t, 0),
        BinOp::Shl => Op::Shl(t, 0),
        BinOp::Shr => Op::Shr(t, 0),
        BinOp::Less => Op::Less(t, 0),
        BinOp::Greater => Op::Greater(t, 0),
        BinOp::LessEqual => Op::LessEqual(t, 0),
        BinOp::GreaterEqual => Op::GreaterEqual(t, 0),
        BinOp::Equal => Op::Equal(t, 0),
        BinOp::NotEqual => Op::NotEqual(t, 0),
        BinOp::And => Op::And(t, 0),
        BinOp::Xor => Op::Xor(t, 0),
        BinOp::Or => Op::Or(t, 0),
    }
}

/// A stack of two numbers, the right one at the top, and no room for more.
fn two_on_a_stack(alloc: Global, left: i128, right: i128) -> Result<OpStack, NoMemory>
    requires left { IsNumber left }
    requires right { IsNumber right }
    ensures operands { IfOk result (λ stack. operands stack ≡ right ∷ left ∷ []) }
    ensures numbers { IfOk result (λ stack. All IsNumber stack.numbers) }
    ensures length { IfOk result (λ stack. length stack.numbers ≡ 2) }
    ensures room { IfOk result (λ stack. stack.room ≡ 2) }
{
    let mut stack = OpStack::with_room(alloc, 2)?;
    stack.push(left);
    stack.push(right);
    Ok(stack)
}

/// What the stack machine makes of an operator on two operands, which are from -2^63 to 2^64 - 1:
/// the number or the trap that the operator gives at the type. `NoMemory` may come instead of
/// either.
pub fn by_stack(
    alloc: Global,
    op: BinOp,
    t: IntType,
    left: i128,
    right: i128,
) -> Result<Result<i128, Trap>, NoMemory>
    requires left { IsNumber left }
    requires right { IsNumber right }
    ensures { IfOk result (λ answer. answer ≡ with_its_trap (binary op t left right)) }
{
    let mut stack = two_on_a_stack(alloc, left, right)?;
    let mut io = RunIo::new(alloc, 0)?;
    match step_op(&operation(op, t), &mut stack, &mut [], &mut [], &mut io) {
        Ok(()) => Ok(Ok(stack.pop())),
        Err((trap, _)) => Ok(Err(trap)),
    }
}
