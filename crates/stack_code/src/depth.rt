//! The most operands that stand at once in a graph.

ghost use Rattle.std.specs.Prelude.{◌≡◌, ◌+◌, ◌*◌, ◌<◌, ◌≤◌, ◌^◌, length, slice_get, slice_set};
ghost use Rattle.std.specs.Prelude.{map, replicate, IfOk};
ghost use Rattle.flow_graph.specs.GraphView.{ending_view};
ghost use Rattle.flow_graph.specs.Nets.{blocks_size};
ghost use Rattle.lower_agrees.specs.Agreement.{is_back};
ghost use Rattle.stack_code.specs.Deepest as spec;

use crate::operands::{gives, takes};
use flow_graph::{Block, Ending, Graph};
use stack_ops::Op;
use std::alloc::{AllocError, Global};

/// The most operands that stand at once while operations are done, and how many stand behind them.
#[derive(Clone, Copy)]
struct Heights {
    most: u32,
    left: u32,
}

/// The most operands that stand at once in the graph, which is one of these: counted on one way
/// through its blocks in order.
pub fn graph_depth(alloc: Global, graphs: &[Graph], graph: &Graph) -> Result<u32, AllocError>
    requires { blocks_size graph.now.blocks < 2 ^ 30 }
    ensures { IfOk result (λ n. n ≡ spec.graph_depth graphs.now graph.now) }
{
    let mut table = vec![in alloc; 0u32; graph.blocks.len() + 2]?;
    Ok(deepest(graphs, &graph.blocks, &mut table))
}

/// The most operands in these blocks, the first of which is block 2; the table gets the operands
/// with which blocks begin that are led to.
fn deepest(graphs: &[Graph], blocks: &[Block], table: &mut [u32]) -> u32
    requires clear { table.old ≡ replicate (2 + length blocks.now) 0 }
    requires small { blocks_size blocks.now < 2 ^ 30 }
    ensures { result ≡ spec.deepest graphs.now 2 table.old blocks.now }
{
    let mut most = 0u32;
    let mut number = 2;
    for block in blocks {
        let heights = heights_of(table[number], &block.ops);
        most = most.max(heights.most);
        lead_on(graphs, &block.end, heights.left, table);
        number += 1;
    }
    most
}

fn heights_of(depth: u32, ops: &[Op]) -> Heights
    requires { depth + 3 * length ops.now < 2 ^ 32 }
    ensures most { result.most ≡ spec.most_in depth ops.now }
    ensures left { result.left ≡ spec.left depth ops.now }
    ensures low { result.left ≤ depth + 3 * length ops.now }
{
    let mut most = depth;
    let mut left = depth;
    for op in ops {
        left = left.saturating_sub(takes(op)) + gives(op);
        most = most.max(left);
    }
    Heights { most, left }
}

/// The blocks to which an ending leads on have so many operands, less what the ending takes.
fn lead_on(graphs: &[Graph], end: &Ending, depth: u32, table: &mut [u32])
    requires { depth + 1 < 2 ^ 32 }
    ensures { let e = ending_view end.now in
        table.new
        ≡ spec.with_depths (spec.led_on (is_back e) e) (spec.far graphs.now e depth) table.old }
{
    match end {
        Ending::Jump(target) => note(table, *target, depth),
        Ending::Branch(one, other) => {
            note(table, *one, depth.saturating_sub(1));
            note(table, *other, depth.saturating_sub(1));
        }
        Ending::Switch(cases, default) => {
            note_cases(table, cases, depth.saturating_sub(1));
            note(table, *default, depth.saturating_sub(1));
        }
        Ending::Call(function, _, next) => {
            note(table, *next, behind_call(graphs, *function, depth));
        }
        Ending::Back(_) | Ending::Return | Ending::Exit => {}
    }
}

fn note(table: &mut [u32], block: u32, depth: u32)
    ensures { table.new ≡ slice_set table.old block depth }
{
    let place = block as usize;
    if place < table.len() {
        table[place] = depth;
    }
}

fn note_cases(table: &mut [u32], cases: &[(i128, u32)], depth: u32)
    ensures { table.new ≡ spec.with_depths (map (λ c. c.1) cases.now) depth table.old }
{
    for case in cases {
        note(table, case.1, depth);
    }
}

/// How many operands stand behind a call, where so many stood before.
fn behind_call(graphs: &[Graph], function: u32, depth: u32) -> u32
    requires { depth + 1 < 2 ^ 32 }
    ensures { result ≡ spec.called_far (slice_get graphs.now function) depth }
{
    match graphs.get(function as usize) {
        Some(called) => depth.saturating_sub(called.params) + u32::from(called.gives),
        None => depth,
    }
}
