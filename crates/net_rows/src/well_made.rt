//! Whether the graphs of a unit are such that their pruned graphs have nets.

ghost use Rattle.std.specs.Prelude.{◌≡◌, IfOk};
ghost use Rattle.std.specs.List.{list_all};
ghost use Rattle.cov_base.specs.Net.{ascends};
ghost use Rattle.flow_graph.specs.GraphView.{ending_view};
ghost use Rattle.flow_graph.specs.Nets.{targets};
ghost use Rattle.net_rows.specs.WellMade.{is_later, block_made, graph_made, unit_made};

use fake_arcs::targets_of;
use flow_graph::{Block, Ending, Graph, GraphUnit};
use std::alloc::{AllocError, Global};

/// Whether each graph has a block, endings that lead to blocks behind block 2, and lines that
/// ascend from above 0.
pub fn is_well_made(alloc: Global, unit: &GraphUnit) -> Result<bool, AllocError>
    ensures { IfOk result (λ made. made ≡ unit_made unit.now) }
{
    for graph in &unit.graphs {
        if !is_graph_made(alloc, graph)? {
            return Ok(false);
        }
    }
    Ok(true)
}

fn is_graph_made(alloc: Global, graph: &Graph) -> Result<bool, AllocError>
    ensures { IfOk result (λ made. made ≡ graph_made graph.now) }
{
    if graph.blocks.is_empty() {
        return Ok(false);
    }
    let count = graph.blocks.len();
    are_blocks_made(alloc, count, &graph.blocks)
}

fn are_blocks_made(alloc: Global, count: usize, blocks: &[Block]) -> Result<bool, AllocError>
    ensures { IfOk result (λ made. made ≡ list_all (block_made count) blocks.now) }
{
    for block in blocks {
        if !leads_later(alloc, count, &block.end)? {
            return Ok(false);
        }
        if !ascending(&block.lines) {
            return Ok(false);
        }
    }
    Ok(true)
}

fn leads_later(alloc: Global, count: usize, end: &Ending) -> Result<bool, AllocError>
    ensures { IfOk result
        (λ made. made ≡ list_all (is_later count) (targets (ending_view end.now))) }
{
    let found = targets_of(alloc, end)?;
    for target in &found {
        if *target <= 2 || *target as usize - 2 >= count {
            return Ok(false);
        }
    }
    Ok(true)
}

fn ascending(lines: &[u32]) -> bool
    ensures { result ≡ ascends 0 lines.now }
{
    let mut low = 0;
    for line in lines {
        if *line <= low {
            return false;
        }
        low = *line;
    }
    true
}
