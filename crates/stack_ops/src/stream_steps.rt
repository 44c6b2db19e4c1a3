//! The operations that read and put bytes.

ghost use Rattle.std.specs.Prelude.{◌≡◌, ◌+◌, ◌≤◌, length, All, IsTrue, OnErr, OnOk};
ghost use Rattle.int_ops.specs.Ranges.{IsNumber};
ghost use Rattle.stack_ops.specs.Effect.{State, row, byte_of, reads, puts};
ghost use Rattle.stack_ops.specs.Groups.{is_stream_step};
ghost use Rattle.stack_ops.specs.Shapes.{takes, gives};
ghost use Rattle.stack_ops.specs.Stack.{operands, bytes_left};
ghost use Rattle.stack_ops.specs.Steps.{told, Counts, KeepsRoom};

use crate::endings::Trap;
use crate::op_stack::OpStack;
use crate::operation::Op;
use crate::run_io::RunIo;

/// A number modulo 256.
fn low_byte(n: i128) -> u8
    ensures { result ≡ byte_of n }
{
    n.rem_euclid(256) as u8
}

/// GetChar and PutChar.
pub fn stream_step(op: &Op, stack: &mut OpStack, io: &mut RunIo) -> Result<(), (Trap, u32)>
    requires group { IsTrue (is_stream_step op.now) }
    requires operands { takes op.now ≤ length stack.old.numbers }
    requires room { length stack.old.numbers + gives op.now ≤ stack.old.room + takes op.now }
    requires numbers { All IsNumber stack.old.numbers }
    ensures effect { (s : State) → row op.now (operands stack.old)
        (record s { input = bytes_left io.old; output = io.old.output; limit = io.old.limit })
        ≡ told result (record s {
          operands = operands stack.new;
          input = bytes_left io.new;
          output = io.new.output;
          limit = io.new.limit;
        }) }
    ensures trapped { OnErr result ((stack.new ≡ stack.old) × (io.new ≡ io.old)) }
    ensures kept { KeepsRoom stack.old stack.new io.old io.new }
    ensures count { OnOk result (Counts op.now stack.old stack.new) }
    ensures numbers { All IsNumber stack.new.numbers }
{
    match *op {
        Op::GetChar => {
            let n = match io.next() {
                Some(byte) => i128::from(byte),
                None => -1,
            };
            stack.push(n);
            Ok(())
        }
        Op::PutChar(line) => {
            if io.is_full() {
                return Err((Trap::OutputLimit, line));
            }
            let byte = low_byte(stack.pop());
            io.put(byte);
            stack.push(i128::from(byte));
            Ok(())
        }
        _ => unreachable!(),
    }
}
