//! Where the blocks of a graph begin in its code.

ghost use Rattle.std.specs.Prelude.{◌≡◌, ℕ, suc, ◌+◌, ◌-◌, ◌<◌, ◌≤◌, ◌^◌, length, map, IfOk};
ghost use Rattle.flow_graph.specs.GraphView.{ending_view};
ghost use Rattle.stack_code.specs.Laying as spec;
ghost use Rattle.stack_code.specs.Modes.{shape_marks};
ghost use Rattle.stack_code.specs.Places.{place_in, end_size};

use crate::goals::goals_of;
use crate::marks::ArcMarks;
use flow_graph::{Block, Ending};
use std::alloc::{AllocError, Global};

/// Where each block of a graph begins, in order from block 2 on, and where the last one ends.
#[derive(Drop)]
pub struct Starts {
    pub places: Vec<u32>,
    pub end: u32,
}

impl Starts {
    /// Where the block begins. There is no block behind the last.
    pub fn place(&self, block: u32) -> u32
        ensures { result ≡ place_in self.now.places.items self.now.end block }
    {
        if block < 2 {
            return self.end;
        }
        match self.places.get((block - 2) as usize) {
            Some(place) => *place,
            None => self.end,
        }
    }
}

/// Where these blocks begin in the code of their graph, with these marks on its arcs.
pub fn starts_of(
    alloc: Global,
    marks: &ArcMarks<'_>,
    blocks: &[Block],
) -> Result<Starts, AllocError>
    requires few { length blocks.now < 2 ^ 31 - 2 }
    requires small { let m = shape_marks marks.now in
        spec.start_of m 2 (length (m 0 2)) blocks.now 0 < 2 ^ 32 }
    ensures { IfOk result (λ s. let m = shape_marks marks.now in (block : ℕ)
        → place_in s.places.items s.end block
        ≡ spec.start_of m 2 (length (m 0 2)) blocks.now block) }
{
    let mut places = Vec::new(alloc);
    let mut end = marks.count(0, 2);
    let mut number = 2;
    for block in blocks {
        places.push(end)?;
        end += size_of_block(alloc, marks, number, block)?;
        number += 1;
    }
    Ok(Starts { places, end })
}

fn size_of_block(
    alloc: Global,
    marks: &ArcMarks<'_>,
    number: u32,
    block: &Block,
) -> Result<u32, AllocError>
    requires low { number < 2 ^ 31 }
    requires small { spec.block_size (shape_marks marks.now number) (suc number) block.now
        < 2 ^ 32 }
    ensures { IfOk result (λ n. n
        ≡ spec.block_size (shape_marks marks.now number) (suc number) block.now) }
{
    let ending = size_of_ending(alloc, marks, number, &block.end)?;
    Ok(block.ops.len() as u32 + ending)
}

fn size_of_ending(
    alloc: Global,
    marks: &ArcMarks<'_>,
    from: u32,
    end: &Ending,
) -> Result<u32, AllocError>
    requires low { from < 2 ^ 31 }
    requires small { end_size (shape_marks marks.now from) (suc from) (ending_view end.now)
        < 2 ^ 32 }
    ensures { IfOk result (λ n. n
        ≡ end_size (shape_marks marks.now from) (suc from) (ending_view end.now)) }
{
    match end {
        Ending::Jump(target) => Ok(size_of_tail(marks, from, *target)),
        Ending::Back(target) => Ok(marks.count(from, *target) + 1),
        Ending::Branch(one, other) => Ok(size_of_branch(marks, from, *one, *other)),
        Ending::Switch(cases, default) => size_of_switch(alloc, marks, from, cases, *default),
        Ending::Call(_, _, next) => Ok(size_of_tail(marks, from, *next) + 1),
        Ending::Return | Ending::Exit => Ok(1),
    }
}

/// The marks of an arc, and a jump where its block isn't the next.
fn size_of_tail(marks: &ArcMarks<'_>, from: u32, to: u32) -> u32
    requires { from < 2 ^ 31 }
    ensures value { result ≡ length (spec.tail (suc from) (shape_marks marks.now from to) to 0) }
    ensures few { result ≤ 3 }
{
    let count = marks.count(from, to);
    if to == from + 1 { count } else { count + 1 }
}

fn size_of_branch(marks: &ArcMarks<'_>, from: u32, one: u32, other: u32) -> u32
    requires { from < 2 ^ 31 }
    ensures { let m = shape_marks marks.now from in
        result ≡ length (spec.branch (spec.is_bare (m other)) m (suc from) (λ x. 0) 0 one other) }
{
    if marks.count(from, other) == 0 {
        return size_of_tail(marks, from, one) + 1;
    }
    marks.count(from, one) + size_of_tail(marks, from, other) + 2
}

fn size_of_switch(
    alloc: Global,
    marks: &ArcMarks<'_>,
    from: u32,
    cases: &[(i128, u32)],
    default: u32,
) -> Result<u32, AllocError>
    requires small { let m = shape_marks marks.now from in
        let view = map (λ c. (c.0, c.1)) cases.now in
        length view
        + suc (length (m default) + 1 + length (spec.stubs m (λ x. 0) (spec.goals view)))
        < 2 ^ 32 }
    ensures { IfOk result (λ n. let m = shape_marks marks.now from in
        let view = map (λ c. (c.0, c.1)) cases.now in
        n ≡ length view
        + suc (length (m default) + 1 + length (spec.stubs m (λ x. 0) (spec.goals view)))) }
{
    let goals = goals_of(alloc, cases)?;
    let stubs = size_of_stubs(marks, from, &goals);
    Ok(cases.len() as u32 + marks.count(from, default) + stubs + 2)
}

/// Where something stands on the arc to one of these blocks, it stands apart with a jump behind it.
fn size_of_stubs(marks: &ArcMarks<'_>, from: u32, goals: &[u32]) -> u32
    requires { length (spec.stubs (shape_marks marks.now from) (λ x. 0) goals.now) < 2 ^ 32 }
    ensures { result ≡ length (spec.stubs (shape_marks marks.now from) (λ x. 0) goals.now) }
{
    let mut size = 0;
    for goal in goals {
        size += size_of_stub(marks, from, *goal);
    }
    size
}

/// What stands on the arc, with a jump behind it, if something stands there.
pub fn size_of_stub(marks: &ArcMarks<'_>, from: u32, goal: u32) -> u32
    ensures { result ≡ length (spec.stub (shape_marks marks.now from goal) 0) }
{
    let count = marks.count(from, goal);
    if count == 0 { 0 } else { count + 1 }
}
