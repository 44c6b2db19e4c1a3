//! The instructions of a graph.

ghost use Rattle.std.specs.Prelude.{◌≡◌, suc, ◌+◌, ◌-◌, ◌*◌, ◌<◌, ◌^◌, ◌++◌, length, IfOk, OnOk};
ghost use Rattle.flow_graph.specs.Nets.{blocks_size, net_of};
ghost use Rattle.stack_code.specs.Laying as spec;
ghost use Rattle.stack_code.specs.Modes.{shape_marks};
ghost use Rattle.stack_code.specs.Places.{place_in};

use crate::endings::put_ending;
use crate::marks::ArcMarks;
use crate::starts::{Starts, starts_of};
use flow_graph::{Block, Graph};
use stack_ops::Op;
use std::alloc::{AllocError, Global};

/// The instructions of a graph with these marks on its arcs: what stands on the arc to block 2, and
/// then its blocks in order.
pub fn graph_code(alloc: Global, marks: &ArcMarks<'_>, graph: &Graph) -> Result<Vec<Op>, AllocError>
    requires { blocks_size graph.now.blocks + 8 * length ((net_of graph.now).arcs) < 2 ^ 31 }
    ensures { IfOk result (λ v. v.items ≡ spec.graph_code (shape_marks marks.now) graph.now) }
{
    let starts = starts_of(alloc, marks, &graph.blocks)?;
    let mut ops = Vec::new(alloc);
    marks.put(0, 2, &mut ops)?;
    put_blocks(alloc, marks, &starts, &graph.blocks, &mut ops)?;
    Ok(ops)
}

fn put_blocks(
    alloc: Global,
    marks: &ArcMarks<'_>,
    starts: &Starts,
    blocks: &[Block],
    ops: &mut Vec<Op>,
) -> Result<(), AllocError>
    requires few { length blocks.now < 2 ^ 31 - 2 }
    requires small { let m = shape_marks marks.now in
        length ops.old.items
        + length (spec.codes m (place_in starts.now.places.items starts.now.end)
        2 (length ops.old.items) blocks.now) < 2 ^ 32 }
    ensures { OnOk result (let m = shape_marks marks.now in ops.new.items ≡ ops.old.items
        ++ spec.codes m (place_in starts.now.places.items starts.now.end) 2 (length ops.old.items)
        blocks.now) }
{
    let mut number = 2;
    for block in blocks {
        put_block(alloc, marks, starts, number, block, ops)?;
        number += 1;
    }
    Ok(())
}

fn put_block(
    alloc: Global,
    marks: &ArcMarks<'_>,
    starts: &Starts,
    number: u32,
    block: &Block,
    ops: &mut Vec<Op>,
) -> Result<(), AllocError>
    requires low { number < 2 ^ 31 }
    requires small { let m = shape_marks marks.now number in
        length ops.old.items + length (spec.block_code m (suc number)
        (place_in starts.now.places.items starts.now.end) (length ops.old.items) block.now)
        < 2 ^ 32 }
    ensures { OnOk result (let m = shape_marks marks.now number in
        ops.new.items ≡ ops.old.items ++ spec.block_code m (suc number)
        (place_in starts.now.places.items starts.now.end) (length ops.old.items) block.now) }
{
    ops.extend_from_slice(&block.ops)?;
    put_ending(alloc, marks, starts, number, &block.end, ops)
}
