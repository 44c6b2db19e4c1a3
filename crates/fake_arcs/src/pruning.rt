//! Pruning of units, within their limits.

ghost use Rattle.std.specs.Prelude.{◌≡◌, ◌+◌, ◌<◌, ◌≤◌, ◌^◌, length, map, None, IfOk};
ghost use Rattle.std.specs.List.{All};
ghost use Rattle.flow_graph.specs.Nets.{reached, kept_blocks, pruned_graph, pruned};
ghost use Rattle.fake_arcs.specs.Numbers.{number_behind};
ghost use Rattle.fake_arcs.specs.Runs.{KeepsRuns};
ghost use Rattle.fake_arcs.specs.Size.{Prunes, graphs_fault};
ghost use Rattle.fake_arcs.specs.Counts.{Measures, MeasuresAll};
ghost use Rattle.fake_arcs.specs.Tidy.{IsWellMade, IsTidy};

use crate::counts::count;
use crate::marking::mark_reached;
use crate::numbers::Numbers;
use c_tree::Ident;
use cov_base::{ARC_LIMIT, BLOCK_LIMIT, Refusal, UNIT_LIMIT};
use flow_graph::{Block, Graph, GraphUnit};
use std::alloc::{AllocError, Global};

/// What of a pruned unit is above its limit. A count stands still at 2^64 - 1.
#[derive(Clone, Copy, Debug, PartialEq, Eq)]
pub enum SizeFault {
    /// The function of this number has so many blocks, the entry and the exit among them, more than
    /// 512.
    TooManyBlocks(u32, u64),
    /// The function of this number has so many arcs, more than 4,096.
    TooManyArcs(u32, u64),
    /// The unit has this size, above 1,048,576: its operations; 2 for a branch, 2 and one for each
    /// case for a switch, 1 for each other ending; and 8 for each arc.
    UnitTooLarge(u64),
}

/// The size of a pruned graph, or its first fault.
fn measure(alloc: Global, function: u32, graph: &Graph) -> Result<u64, Refusal<SizeFault>>
    ensures { Measures function graph.now result }
{
    let marks = mark_reached(alloc, &graph.blocks)?;
    let blocks = count_marks(&marks).saturating_add(2);
    if blocks > BLOCK_LIMIT as u64 {
        return Err(Refusal::Refused(SizeFault::TooManyBlocks(function, blocks)));
    }
    let numbers = Numbers::of(alloc, marks)?;
    let counts = count(alloc, &numbers, &graph.blocks)?;
    let arcs = counts.arcs.saturating_add(1);
    if arcs > ARC_LIMIT as u64 {
        return Err(Refusal::Refused(SizeFault::TooManyArcs(function, arcs)));
    }
    Ok(counts.size.saturating_add(8 * arcs))
}

fn count_marks(marks: &[bool]) -> u64
    ensures { 2 + result ≡ number_behind 2 marks.now }
{
    let mut count = 0;
    for mark in marks {
        if *mark {
            count += 1;
        }
    }
    count
}

/// The size of a unit's pruned graphs, or the first fault.
fn measure_all(alloc: Global, graphs: &[Graph]) -> Result<u64, Refusal<SizeFault>>
    requires { length graphs.now < 2 ^ 32 }
    ensures { MeasuresAll 0 graphs.now result }
{
    let mut size = 0u64;
    let mut function = 0u32;
    for graph in graphs {
        let here = measure(alloc, function, graph)?;
        size = size.saturating_add(here);
        function += 1;
    }
    Ok(size)
}

/// The unit without the blocks that block 2 of their function doesn't reach; the others are
/// numbered anew, in order. It is refused where it is too large: functions are tested in order,
/// each for its blocks and then for its arcs, and the unit last.
pub fn prune(alloc: Global, unit: &GraphUnit) -> Result<GraphUnit, Refusal<SizeFault>>
    requires { length unit.now.graphs < 2 ^ 32 }
    ensures exact { Prunes unit.now result }
    ensures runs { IfOk result (λ new. KeepsRuns unit.now new) }
    ensures tidy { IfOk result (λ new. All IsWellMade unit.now.graphs → All IsTidy new.graphs) }
{
    let size = measure_all(alloc, &unit.graphs)?;
    if size > UNIT_LIMIT {
        return Err(Refusal::Refused(SizeFault::UnitTooLarge(size)));
    }
    let pruned = prune_unit(alloc, unit)?;
    Ok(pruned)
}

fn prune_unit(alloc: Global, unit: &GraphUnit) -> Result<GraphUnit, AllocError>
    requires { graphs_fault 0 unit.now.graphs ≡ None }
    ensures { IfOk result (λ u. u ≡ pruned unit.now) }
{
    let graphs = prune_graphs(alloc, &unit.graphs)?;
    Ok(GraphUnit {
        globals: Vec::from_slice(alloc, &unit.globals)?,
        main: unit.main,
        graphs,
    })
}

fn prune_graphs(alloc: Global, graphs: &[Graph]) -> Result<Vec<Graph>, AllocError>
    requires { graphs_fault 0 graphs.now ≡ None }
    ensures { IfOk result (λ v. v.items ≡ map pruned_graph graphs.now) }
{
    let mut pruned = Vec::new(alloc);
    for graph in graphs {
        pruned.push(prune_graph(alloc, graph)?)?;
    }
    Ok(pruned)
}

fn prune_graph(alloc: Global, graph: &Graph) -> Result<Graph, AllocError>
    requires { 2 + length (pruned_graph graph.now).blocks ≤ 512 }
    ensures { IfOk result (λ g. g ≡ pruned_graph graph.now) }
{
    let blocks = prune_blocks(alloc, &graph.blocks)?;
    Ok(Graph {
        name: Ident::of(alloc, graph.name.bytes())?,
        line: graph.line,
        params: graph.params,
        cells: graph.cells,
        gives: graph.gives,
        blocks,
    })
}

/// The blocks that block 2 reaches, with their new numbers.
fn prune_blocks(alloc: Global, blocks: &[Block]) -> Result<Vec<Block>, AllocError>
    requires { 2 + length (kept_blocks (reached blocks.now) 2 blocks.now) ≤ 512 }
    ensures { IfOk result (λ v. v.items ≡ kept_blocks (reached blocks.now) 2 blocks.now) }
{
    let marks = mark_reached(alloc, blocks)?;
    let numbers = Numbers::of(alloc, marks)?;
    let kept = numbers.keep_all(alloc, blocks)?;
    Ok(kept)
}
