//! The operations on operands alone.

ghost use Rattle.std.specs.Prelude.{◌≡◌, ◌+◌, ◌≤◌, length, All, IsTrue};
ghost use Rattle.int_ops.specs.Ranges.{IsNumber};
ghost use Rattle.stack_ops.specs.Effect.{State, leaves, row};
ghost use Rattle.stack_ops.specs.Groups.{is_operand_step};
ghost use Rattle.stack_ops.specs.Shapes.{takes, gives, HasNumber};
ghost use Rattle.stack_ops.specs.Steps.{Counts};
ghost use Rattle.stack_ops.specs.Stack.{operands};

use crate::op_stack::OpStack;
use crate::operation::Op;

/// Push, Dup, Drop, Swap and Over.
pub fn operand_step(op: &Op, stack: &mut OpStack)
    requires group { IsTrue (is_operand_step op.now) }
    requires operands { takes op.now ≤ length stack.old.numbers }
    requires room { length stack.old.numbers + gives op.now ≤ stack.old.room + takes op.now }
    requires number { HasNumber op.now }
    requires numbers { All IsNumber stack.old.numbers }
    ensures effect { (s : State)
        → row op.now (operands stack.old) s ≡ leaves (operands stack.new) s }
    ensures room { stack.new.room ≡ stack.old.room }
    ensures count { Counts op.now stack.old stack.new }
    ensures numbers { All IsNumber stack.new.numbers }
{
    match *op {
        Op::Push(n) => stack.push(n),
        Op::Dup => {
            let a = stack.pop();
            stack.push(a);
            stack.push(a);
        }
        Op::Drop => {
            stack.pop();
        }
        Op::Swap => {
            let b = stack.pop();
            let a = stack.pop();
            stack.push(b);
            stack.push(a);
        }
        Op::Over => {
            let b = stack.pop();
            let a = stack.pop();
            stack.push(a);
            stack.push(b);
            stack.push(a);
        }
        _ => unreachable!(),
    }
}
