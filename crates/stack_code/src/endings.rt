//! The instructions of the endings of blocks.

ghost use Rattle.std.specs.Prelude.{◌≡◌, suc, ◌+◌, ◌<◌, ◌^◌, ◌++◌, ◌∷◌, [], length, OnOk};
ghost use Rattle.stack_ops.specs.declared.operation.Op.TheVariants as op;
ghost use Rattle.flow_graph.specs.GraphView.{ending_view};
ghost use Rattle.stack_code.specs.Laying as spec;
ghost use Rattle.stack_code.specs.Modes.{shape_marks};
ghost use Rattle.stack_code.specs.Places.{place_in};

use crate::marks::ArcMarks;
use crate::starts::Starts;
use crate::switches::put_switch;
use flow_graph::Ending;
use stack_ops::Op;
use std::alloc::{AllocError, Global};

/// Puts the instructions of the ending of a block behind those of the block.
pub fn put_ending(
    alloc: Global,
    marks: &ArcMarks<'_>,
    starts: &Starts,
    from: u32,
    end: &Ending,
    ops: &mut Vec<Op>,
) -> Result<(), AllocError>
    requires low { from < 2 ^ 31 }
    requires small { let m = shape_marks marks.now from in
        length ops.old.items + length (spec.end_code m (suc from)
        (place_in starts.now.places.items starts.now.end) (length ops.old.items)
        (ending_view end.now))
        < 2 ^ 32 }
    ensures { OnOk result (let m = shape_marks marks.now from in
        ops.new.items ≡ ops.old.items ++ spec.end_code m (suc from)
        (place_in starts.now.places.items starts.now.end) (length ops.old.items)
        (ending_view end.now)) }
{
    match end {
        Ending::Jump(target) => put_tail(marks, starts, from, *target, ops),
        Ending::Back(target) => {
            marks.put(from, *target, ops)?;
            ops.push(Op::Back(starts.place(*target)))?;
            Ok(())
        }
        Ending::Branch(one, other) => put_branch(marks, starts, from, *one, *other, ops),
        Ending::Switch(cases, default) => {
            put_switch(alloc, marks, starts, from, cases, *default, ops)
        }
        Ending::Call(function, line, next) => {
            ops.push(Op::Call(*function, *line))?;
            put_tail(marks, starts, from, *next, ops)
        }
        Ending::Return => {
            ops.push(Op::Return)?;
            Ok(())
        }
        Ending::Exit => {
            ops.push(Op::Exit)?;
            Ok(())
        }
    }
}

/// What stands on the arc, and a jump to its block where that isn't the next.
fn put_tail(
    marks: &ArcMarks<'_>,
    starts: &Starts,
    from: u32,
    to: u32,
    ops: &mut Vec<Op>,
) -> Result<(), AllocError>
    requires { from < 2 ^ 31 }
    ensures { OnOk result (ops.new.items ≡ ops.old.items ++ spec.tail (suc from)
        (shape_marks marks.now from to) to (place_in starts.now.places.items starts.now.end to)) }
{
    marks.put(from, to, ops)?;
    if to == from + 1 {
        return Ok(());
    }
    ops.push(Op::Jump(starts.place(to)))?;
    Ok(())
}

/// What stands on the arc, and a jump to its block.
pub fn put_jump(
    marks: &ArcMarks<'_>,
    starts: &Starts,
    from: u32,
    to: u32,
    ops: &mut Vec<Op>,
) -> Result<(), AllocError>
    ensures { OnOk result (ops.new.items ≡ ops.old.items ++ (shape_marks marks.now from to
        ++ op.Jump (place_in starts.now.places.items starts.now.end to) ∷ [])) }
{
    marks.put(from, to, ops)?;
    ops.push(Op::Jump(starts.place(to)))?;
    Ok(())
}

/// A test that goes to the second block at once where nothing stands on the arc to it, and else to
/// what stands there, behind the way to the first.
fn put_branch(
    marks: &ArcMarks<'_>,
    starts: &Starts,
    from: u32,
    one: u32,
    other: u32,
    ops: &mut Vec<Op>,
) -> Result<(), AllocError>
    requires low { from < 2 ^ 31 }
    requires small { let m = shape_marks marks.now from in
        length ops.old.items + length (spec.branch (spec.is_bare (m other)) m (suc from)
        (place_in starts.now.places.items starts.now.end) (length ops.old.items) one other)
        < 2 ^ 32 }
    ensures { OnOk result (let m = shape_marks marks.now from in
        ops.new.items ≡ ops.old.items ++ spec.branch (spec.is_bare (m other)) m (suc from)
        (place_in starts.now.places.items starts.now.end) (length ops.old.items) one other) }
{
    if marks.count(from, other) == 0 {
        ops.push(Op::IfZero(starts.place(other)))?;
        return put_tail(marks, starts, from, one, ops);
    }
    let far = ops.len() as u32 + marks.count(from, one) + 2;
    ops.push(Op::IfZero(far))?;
    put_jump(marks, starts, from, one, ops)?;
    put_tail(marks, starts, from, other, ops)
}
