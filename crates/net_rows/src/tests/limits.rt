//! Units at their limits and above.

ghost use Rattle.std.specs.Prelude.{◌≡◌, ◌≤◌, length, IfOk};

use super::{assert_size, block, unit_with};
use fake_arcs::SizeFault;
use flow_graph::{Block, Ending, GraphUnit};
use stack_ops::Op;
use std::alloc::{AllocError, Global};
use std::test::Fail;

/// A switch over so many cases, each of which breaks.
fn switch(alloc: Global, cases: u32) -> Result<GraphUnit, AllocError>
    requires { cases ≤ 1000 }
    ensures { IfOk result (λ unit. length unit.graphs ≡ 1) }
{
    let mut table = Vec::new(alloc);
    let mut blocks = Vec::new(alloc);
    for case in 0..cases {
        table.push((case as i128, case + 3))?;
    }
    blocks.push(block(alloc, Ending::Switch(table, cases + 3), &[1])?)?;
    for _ in 0..cases {
        blocks.push(block(alloc, Ending::Jump(cases + 3), &[1])?)?;
    }
    blocks.push(block(alloc, Ending::Return, &[])?)?;
    unit_with(alloc, blocks)
}

#[test]
fn function_has_512_blocks_and_not_513(rt: HostRuntime) -> Result<(), Fail> {
    assert_size(&rt, &switch(rt.alloc(), 508)?, None)?;
    assert_size(
        &rt,
        &switch(rt.alloc(), 509)?,
        Some(SizeFault::TooManyBlocks(0, 513)),
    )
}

/// The ending of a block of a graph of 510 blocks: 448 of them lead to nine others, then so many to
/// two, the others to the next.
fn dense_ending(alloc: Global, place: u32, twos: u32) -> Result<Ending, AllocError>
    requires place { place ≤ 509 }
    requires twos { twos ≤ 10 }
{
    let next = place + 3;
    if place == 509 {
        return Ok(Ending::Return);
    }
    if place < 448 {
        let mut cases = Vec::new(alloc);
        for case in 0..8u32 {
            cases.push((case as i128, next + 1 + case))?;
        }
        return Ok(Ending::Switch(cases, next));
    }
    if place < 448 + twos {
        return Ok(Ending::Branch(next, next + 1));
    }
    Ok(Ending::Jump(next))
}

/// A graph with 4,095 arcs and so many more.
fn dense(alloc: Global, twos: u32) -> Result<GraphUnit, AllocError>
    requires { twos ≤ 10 }
    ensures { IfOk result (λ unit. length unit.graphs ≡ 1) }
{
    let mut blocks = Vec::new(alloc);
    for place in 0..510u32 {
        blocks.push(block(alloc, dense_ending(alloc, place, twos)?, &[])?)?;
    }
    unit_with(alloc, blocks)
}

#[test]
fn function_has_4096_arcs_and_not_4097(rt: HostRuntime) -> Result<(), Fail> {
    assert_size(&rt, &dense(rt.alloc(), 1)?, None)?;
    assert_size(
        &rt,
        &dense(rt.alloc(), 2)?,
        Some(SizeFault::TooManyArcs(0, 4097)),
    )
}

/// One block with so many operations; its size is 17 more.
fn long(alloc: Global, count: u32) -> Result<GraphUnit, AllocError>
    ensures { IfOk result (λ unit. length unit.graphs ≡ 1) }
{
    let mut ops = Vec::new(alloc);
    for _ in 0..count {
        ops.push(Op::Dup)?;
    }
    let mut blocks = Vec::new(alloc);
    blocks.push(Block {
        ops,
        end: Ending::Return,
        lines: Vec::new(alloc),
    })?;
    unit_with(alloc, blocks)
}

#[test]
fn unit_has_a_size_of_1048576_and_not_1048577(rt: HostRuntime) -> Result<(), Fail> {
    assert_size(&rt, &long(rt.alloc(), 1_048_559)?, None)?;
    assert_size(
        &rt,
        &long(rt.alloc(), 1_048_560)?,
        Some(SizeFault::UnitTooLarge(1_048_577)),
    )
}
