//! The instructions of a switch.

ghost use Rattle.std.specs.Prelude.{◌≡◌, suc, ◌+◌, ◌<◌, ◌^◌, ◌++◌, ◌∷◌, [], length, map, IfOk, OnOk};
ghost use Rattle.stack_ops.specs.declared.operation.Op.TheVariants as op;
ghost use Rattle.stack_code.specs.Laying as spec;
ghost use Rattle.stack_code.specs.Modes.{shape_marks};
ghost use Rattle.stack_code.specs.Places.{place_in, stubs_from, stubs_end};
ghost use Rattle.stack_code.specs.Stubs.{AreStubs};

use crate::endings::put_jump;
use crate::goals::goals_of;
use crate::marks::ArcMarks;
use crate::starts::{Starts, size_of_stub};
use stack_ops::Op;
use std::alloc::{AllocError, Global};

/// The blocks that the cases of a switch lead to, ascending, and where the stub of each stands:
/// what stands on the arc to it, apart from the other ways, with a jump behind it.
#[derive(Drop)]
pub struct Stubs {
    pub goals: Vec<u32>,
    pub places: Vec<u32>,
    /// Where the first stands.
    pub first: u32,
    /// Where the last ends.
    pub end: u32,
}

impl Stubs {
    /// The stubs of these blocks, the first at this place.
    fn of(
        alloc: Global,
        marks: &ArcMarks<'_>,
        from: u32,
        goals: Vec<u32>,
        first: u32,
    ) -> Result<Stubs, AllocError>
        requires { first + length (spec.stubs (shape_marks marks.now from) (λ x. 0) goals.items)
            < 2 ^ 32 }
        ensures goals { IfOk result (λ s. s.goals.items ≡ goals.items) }
        ensures first { IfOk result (λ s. s.first ≡ first) }
        ensures places { IfOk result (λ s. s.places.items
            ≡ stubs_from (shape_marks marks.now from) first goals.items) }
        ensures end { IfOk result (λ s. s.end
            ≡ stubs_end (shape_marks marks.now from) first goals.items) }
    {
        let mut places = Vec::new(alloc);
        let mut end = first;
        for goal in &goals {
            places.push(end)?;
            end += size_of_stub(marks, from, *goal);
        }
        Ok(Stubs {
            goals,
            places,
            first,
            end,
        })
    }

    /// Where the test of a case goes: to its block where nothing stands on the arc, and else to the
    /// stub of the block.
    fn way(&self, marks: &ArcMarks<'_>, starts: &Starts, from: u32, target: u32) -> u32
        requires { AreStubs (shape_marks marks.now from) self.now }
        ensures { let m = shape_marks marks.now from in
            result ≡ spec.land (m target)
            (place_in starts.now.places.items starts.now.end target)
            (spec.stub_at m self.now.first self.now.goals.items target) }
    {
        if marks.count(from, target) == 0 {
            return starts.place(target);
        }
        match self.goals.binary_search(&target) {
            Ok(place) => self.places[place],
            Err(_) => self.end,
        }
    }
}

/// Puts the tests of a switch behind operations, then the way to the default, and then a stub for
/// each block that a case leads to with something on its arc.
pub fn put_switch(
    alloc: Global,
    marks: &ArcMarks<'_>,
    starts: &Starts,
    from: u32,
    cases: &[(i128, u32)],
    default: u32,
    ops: &mut Vec<Op>,
) -> Result<(), AllocError>
    requires { let m = shape_marks marks.now from in
        let view = map (λ c. (c.0, c.1)) cases.now in
        length ops.old.items + (length view
        + suc (length (m default) + 1 + length (spec.stubs m (λ x. 0) (spec.goals view))))
        < 2 ^ 32 }
    ensures { OnOk result (let m = shape_marks marks.now from in
        let view = map (λ c. (c.0, c.1)) cases.now in
        let start = place_in starts.now.places.items starts.now.end in
        ops.new.items ≡ ops.old.items ++ (spec.tests m start
        (length ops.old.items + length view + 1 + (length (m default) + 1)) (spec.goals view) view
        ++ ((op.Drop ∷ (m default ++ op.Jump (start default) ∷ []))
        ++ spec.stubs m start (spec.goals view)))) }
{
    let goals = goals_of(alloc, cases)?;
    let first = ops.len() as u32 + cases.len() as u32 + marks.count(from, default) + 2;
    let stubs = Stubs::of(alloc, marks, from, goals, first)?;
    put_tests(marks, starts, from, &stubs, cases, ops)?;
    ops.push(Op::Drop)?;
    put_jump(marks, starts, from, default, ops)?;
    put_stubs(marks, starts, from, &stubs.goals, ops)
}

fn put_tests(
    marks: &ArcMarks<'_>,
    starts: &Starts,
    from: u32,
    stubs: &Stubs,
    cases: &[(i128, u32)],
    ops: &mut Vec<Op>,
) -> Result<(), AllocError>
    requires { AreStubs (shape_marks marks.now from) stubs.now }
    ensures { OnOk result (ops.new.items ≡ ops.old.items ++ spec.tests (shape_marks marks.now from)
        (place_in starts.now.places.items starts.now.end) stubs.now.first stubs.now.goals.items
        (map (λ c. (c.0, c.1)) cases.now)) }
{
    for case in cases {
        let way = stubs.way(marks, starts, from, case.1);
        ops.push(Op::CaseJump(case.0, way))?;
    }
    Ok(())
}

fn put_stubs(
    marks: &ArcMarks<'_>,
    starts: &Starts,
    from: u32,
    goals: &[u32],
    ops: &mut Vec<Op>,
) -> Result<(), AllocError>
    ensures { OnOk result (ops.new.items ≡ ops.old.items ++ spec.stubs (shape_marks marks.now from)
        (place_in starts.now.places.items starts.now.end) goals.now) }
{
    for goal in goals {
        put_stub(marks, starts, from, *goal, ops)?;
    }
    Ok(())
}

fn put_stub(
    marks: &ArcMarks<'_>,
    starts: &Starts,
    from: u32,
    goal: u32,
    ops: &mut Vec<Op>,
) -> Result<(), AllocError>
    ensures { OnOk result (ops.new.items ≡ ops.old.items ++ spec.stub
        (shape_marks marks.now from goal) (place_in starts.now.places.items starts.now.end goal)) }
{
    if marks.count(from, goal) == 0 {
        return Ok(());
    }
    put_jump(marks, starts, from, goal, ops)
}
