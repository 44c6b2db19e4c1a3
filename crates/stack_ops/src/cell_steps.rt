//! The operations on single cells.

ghost use Rattle.std.specs.Prelude.{◌≡◌, ◌+◌, ◌<◌, ◌≤◌, length, All, IsTrue};
ghost use Rattle.int_ops.specs.Ranges.{IsNumber};
ghost use Rattle.stack_ops.specs.Effect.{State, Goes, row};
ghost use Rattle.stack_ops.specs.Groups.{is_cell_step};
ghost use Rattle.stack_ops.specs.Shapes.{takes, gives, HasCells};
ghost use Rattle.stack_ops.specs.Steps.{Counts};
ghost use Rattle.stack_ops.specs.Stack.{operands};

use crate::op_stack::OpStack;
use crate::operation::Op;

/// The loads and stores of cells and globals.
pub fn cell_step(op: &Op, stack: &mut OpStack, locals: &mut [i128], globals: &mut [i128])
    requires group { IsTrue (is_cell_step op.now) }
    requires operands { takes op.now ≤ length stack.old.numbers }
    requires cells { HasCells op.now locals.old globals.old }
    requires room { length stack.old.numbers + gives op.now ≤ stack.old.room + takes op.now }
    requires stack_numbers { All IsNumber stack.old.numbers }
    requires cell_numbers { All IsNumber locals.old }
    requires global_numbers { All IsNumber globals.old }
    ensures effect { (s : State)
        → row op.now (operands stack.old) (record s { cells = locals.old; globals = globals.old })
        ≡ Goes (record s {
          operands = operands stack.new;
          cells = locals.new;
          globals = globals.new;
        }) }
    ensures room { stack.new.room ≡ stack.old.room }
    ensures count { Counts op.now stack.old stack.new }
    ensures stack_numbers { All IsNumber stack.new.numbers }
    ensures cell_numbers { All IsNumber locals.new }
    ensures global_numbers { All IsNumber globals.new }
{
    match *op {
        Op::LoadLocal(w) => stack.push(locals[w as usize]),
        Op::StoreLocal(w) => locals[w as usize] = stack.top(),
        Op::LoadGlobal(w) => stack.push(globals[w as usize]),
        Op::StoreGlobal(w) => globals[w as usize] = stack.top(),
        _ => unreachable!(),
    }
}
