//! The operators.

ghost use Rattle.std.specs.Prelude.{◌≡◌, ◌+◌, ◌≤◌, length, All, IsTrue, OnErr, OnOk};
ghost use Rattle.int_ops.specs.Apply.{binary, unary};
ghost use Rattle.int_ops.specs.Ranges.{IsNumber};
ghost use Rattle.stack_ops.specs.Effect.{State, row, on_two, on_one};
ghost use Rattle.stack_ops.specs.Effect as spec;
ghost use Rattle.stack_ops.specs.Groups.{is_binary_step, is_unary_step};
ghost use Rattle.stack_ops.specs.Shapes.{takes};
ghost use Rattle.stack_ops.specs.Stack.{operands};
ghost use Rattle.stack_ops.specs.Steps.{told, Counts};

use crate::endings::Trap;
use crate::op_stack::OpStack;
use crate::operation::Op;
use int_ops::{ArithTrap, BinOp, IntType, UnOp, binary, convert, unary};

/// The trap of the same name.
fn trap_of(why: ArithTrap) -> Trap
    ensures { result ≡ spec.trap_of why }
{
    match why {
        ArithTrap::Overflow => Trap::Overflow,
        ArithTrap::DivideByZero => Trap::DivideByZero,
        ArithTrap::ShiftRange => Trap::ShiftRange,
    }
}

/// An operator on the two numbers at the top, the left one below the right one.
fn apply_binary(op: BinOp, t: IntType, line: u32, stack: &mut OpStack) -> Result<(), (Trap, u32)>
    requires operands { 2 ≤ length stack.old.numbers }
    requires numbers { All IsNumber stack.old.numbers }
    ensures effect { (s : State) → on_two (binary op t) line (operands stack.old) s
        ≡ told result (record s { operands = operands stack.new }) }
    ensures trapped { OnErr result (stack.new ≡ stack.old) }
    ensures room { stack.new.room ≡ stack.old.room }
    ensures count { OnOk result (length stack.new.numbers + 1 ≡ length stack.old.numbers) }
    ensures numbers { All IsNumber stack.new.numbers }
{
    let b = stack.pop();
    let a = stack.pop();
    match binary(op, t, a, b) {
        Ok(n) => {
            stack.push(n);
            Ok(())
        }
        Err(why) => {
            stack.push(a);
            stack.push(b);
            Err((trap_of(why), line))
        }
    }
}

/// An operator on the number at the top.
fn apply_unary(op: UnOp, t: IntType, line: u32, stack: &mut OpStack) -> Result<(), (Trap, u32)>
    requires operands { 1 ≤ length stack.old.numbers }
    requires numbers { All IsNumber stack.old.numbers }
    ensures effect { (s : State) → on_one (unary op t) line (operands stack.old) s
        ≡ told result (record s { operands = operands stack.new }) }
    ensures trapped { OnErr result (stack.new ≡ stack.old) }
    ensures room { stack.new.room ≡ stack.old.room }
    ensures count { OnOk result (length stack.new.numbers ≡ length stack.old.numbers) }
    ensures numbers { All IsNumber stack.new.numbers }
{
    let a = stack.pop();
    match unary(op, t, a) {
        Ok(n) => {
            stack.push(n);
            Ok(())
        }
        Err(why) => {
            stack.push(a);
            Err((trap_of(why), line))
        }
    }
}

/// The sixteen operators on two operands.
pub fn binary_step(op: &Op, stack: &mut OpStack) -> Result<(), (Trap, u32)>
    requires group { IsTrue (is_binary_step op.now) }
    requires operands { takes op.now ≤ length stack.old.numbers }
    requires numbers { All IsNumber stack.old.numbers }
    ensures effect { (s : State) → row op.now (operands stack.old) s
        ≡ told result (record s { operands = operands stack.new }) }
    ensures trapped { OnErr result (stack.new ≡ stack.old) }
    ensures room { stack.new.room ≡ stack.old.room }
    ensures count { OnOk result (Counts op.now stack.old stack.new) }
    ensures numbers { All IsNumber stack.new.numbers }
{
    macro_rules! by_operator {
        ($($name:ident)*) => {
            match *op {
                $(Op::$name(t, line) => apply_binary(BinOp::$name, t, line, stack),)*
                _ => unreachable!(),
            }
        };
    }
    by_operator!(
        Mul Div Rem Add Sub Shl Shr
        Less Greater LessEqual GreaterEqual Equal NotEqual
        And Xor Or
    )
}

/// Convert, Not, and the two operators on one operand.
pub fn unary_step(op: &Op, stack: &mut OpStack) -> Result<(), (Trap, u32)>
    requires group { IsTrue (is_unary_step op.now) }
    requires operands { takes op.now ≤ length stack.old.numbers }
    requires numbers { All IsNumber stack.old.numbers }
    ensures effect { (s : State) → row op.now (operands stack.old) s
        ≡ told result (record s { operands = operands stack.new }) }
    ensures trapped { OnErr result (stack.new ≡ stack.old) }
    ensures room { stack.new.room ≡ stack.old.room }
    ensures count { OnOk result (Counts op.now stack.old stack.new) }
    ensures numbers { All IsNumber stack.new.numbers }
{
    match *op {
        Op::Convert(t) => {
            let a = stack.pop();
            stack.push(convert(t, a));
            Ok(())
        }
        Op::Not => {
            let a = stack.pop();
            stack.push(if a == 0 { 1 } else { 0 });
            Ok(())
        }
        Op::Minus(t, line) => apply_unary(UnOp::Minus, t, line, stack),
        Op::Complement(t, line) => apply_unary(UnOp::Complement, t, line, stack),
        _ => unreachable!(),
    }
}
