//! One step of a machine.

ghost use Rattle.std.specs.Prelude.{◌≡◌, ◌+◌, ◌≤◌, length, IsTrue, OnErr, OnOk};
ghost use Rattle.stack_ops.specs.Effect.{effect};
ghost use Rattle.stack_ops.specs.Shapes.{takes, gives, is_step, HasCells, HasNumber};
ghost use Rattle.stack_ops.specs.Steps.{state, told, Counts, IsUnchanged, KeepsRoom, AreNumbers};

use crate::cell_steps::cell_step;
use crate::element_steps::element_step;
use crate::endings::Trap;
use crate::op_stack::OpStack;
use crate::operand_steps::operand_step;
use crate::operation::Op;
use crate::operator_steps::{binary_step, unary_step};
use crate::run_io::RunIo;
use crate::stream_steps::stream_step;

/// Does one operation that acts on these lists alone: none that jumps, calls, ends or counts, and
/// none that marks paths. A trap comes with its line and changes nothing.
pub fn step_op(
    op: &Op,
    stack: &mut OpStack,
    locals: &mut [i128],
    globals: &mut [i128],
    io: &mut RunIo,
) -> Result<(), (Trap, u32)>
    requires step { IsTrue (is_step op.now) }
    requires operands { takes op.now ≤ length stack.old.numbers }
    requires cells { HasCells op.now locals.old globals.old }
    requires room { length stack.old.numbers + gives op.now ≤ stack.old.room + takes op.now }
    requires number { HasNumber op.now }
    requires numbers { AreNumbers stack.old locals.old globals.old }
    ensures effect { effect op.now (state stack.old locals.old globals.old io.old)
        ≡ told result (state stack.new locals.new globals.new io.new) }
    ensures trapped { OnErr result
        (IsUnchanged stack.old stack.new locals.old locals.new globals.old globals.new
        io.old io.new) }
    ensures kept { KeepsRoom stack.old stack.new io.old io.new }
    ensures count { OnOk result (Counts op.now stack.old stack.new) }
    ensures numbers { AreNumbers stack.new locals.new globals.new }
{
    match op {
        Op::Push(_) | Op::Dup | Op::Drop | Op::Swap | Op::Over => {
            operand_step(op, stack);
            Ok(())
        }
        Op::Convert(_) | Op::Not | Op::Minus(..) | Op::Complement(..) => unary_step(op, stack),
        Op::LoadLocal(_) | Op::StoreLocal(_) | Op::LoadGlobal(_) | Op::StoreGlobal(_) => {
            cell_step(op, stack, locals, globals);
            Ok(())
        }
        Op::CheckIndex(..)
        | Op::LoadLocalAt(..)
        | Op::StoreLocalAt(..)
        | Op::LoadGlobalAt(..)
        | Op::StoreGlobalAt(..) => { element_step(op, stack, locals, globals) }
        Op::GetChar | Op::PutChar(_) => stream_step(op, stack, io),
        _ => binary_step(op, stack),
    }
}
