//! The operations on elements of arrays.

ghost use Rattle.std.specs.Prelude.{◌≡◌, ◌+◌, ◌<◌, ◌≤◌, length, All, IsTrue, IfSome, OnErr, OnOk};
ghost use Rattle.int_ops.specs.Ranges.{IsNumber};
ghost use Rattle.stack_ops.specs.Effect.{State, row, element};
ghost use Rattle.stack_ops.specs.Groups.{is_element_step};
ghost use Rattle.stack_ops.specs.Shapes.{takes, HasCells};
ghost use Rattle.stack_ops.specs.Stack.{operands};
ghost use Rattle.stack_ops.specs.Steps.{told, Counts};

use crate::endings::Trap;
use crate::op_stack::OpStack;
use crate::operation::Op;

/// The cell of an element, where the index is one of its array.
fn cell_of(base: u32, size: u32, index: i128) -> Option<usize>
    ensures cell { result ≡ element base size index }
    ensures within { IfSome result (λ w. w < base + size) }
{
    if index < 0 {
        return None;
    }
    if index >= size as i128 {
        return None;
    }
    Some(base as usize + index as usize)
}

/// Takes an index and gives the number of its element.
macro_rules! load {
    ($base:ident, $size:ident, $stack:ident, $cells:ident) => {{
        let index = $stack.pop();
        let Some(w) = cell_of($base, $size, index) else {
            $stack.push(index);
            return Err((Trap::BadIndex, 0));
        };
        $stack.push($cells[w]);
        Ok(())
    }};
}

/// Takes an index and a number, sets the element, and gives the number.
macro_rules! store {
    ($base:ident, $size:ident, $stack:ident, $cells:ident) => {{
        let a = $stack.pop();
        let i = $stack.pop();
        let Some(w) = cell_of($base, $size, i) else {
            $stack.push(i);
            $stack.push(a);
            return Err((Trap::BadIndex, 0));
        };
        $cells[w] = a;
        $stack.push(a);
        Ok(())
    }};
}

/// CheckIndex, and the loads and stores of elements.
pub fn element_step(
    op: &Op,
    stack: &mut OpStack,
    locals: &mut [i128],
    globals: &mut [i128],
) -> Result<(), (Trap, u32)>
    requires group { IsTrue (is_element_step op.now) }
    requires operands { takes op.now ≤ length stack.old.numbers }
    requires cells { HasCells op.now locals.old globals.old }
    requires stack_numbers { All IsNumber stack.old.numbers }
    requires cell_numbers { All IsNumber locals.old }
    requires global_numbers { All IsNumber globals.old }
    ensures effect { (s : State)
        → row op.now (operands stack.old) (record s { cells = locals.old; globals = globals.old })
        ≡ told result (record s {
          operands = operands stack.new;
          cells = locals.new;
          globals = globals.new;
        }) }
    ensures trapped { OnErr result
        ((stack.new ≡ stack.old) × (locals.new ≡ locals.old) × (globals.new ≡ globals.old)) }
    ensures room { stack.new.room ≡ stack.old.room }
    ensures count { OnOk result (Counts op.now stack.old stack.new) }
    ensures stack_numbers { All IsNumber stack.new.numbers }
    ensures cell_numbers { All IsNumber locals.new }
    ensures global_numbers { All IsNumber globals.new }
{
    match *op {
        Op::CheckIndex(size, line) => match cell_of(0, size, stack.top()) {
            Some(_) => Ok(()),
            None => Err((Trap::BadIndex, line)),
        },
        Op::LoadLocalAt(base, size) => load!(base, size, stack, locals),
        Op::StoreLocalAt(base, size) => store!(base, size, stack, locals),
        Op::LoadGlobalAt(base, size) => load!(base, size, stack, globals),
        Op::StoreGlobalAt(base, size) => store!(base, size, stack, globals),
        _ => unreachable!(),
    }
}
