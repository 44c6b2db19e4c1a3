//! Nets of graphs.

ghost use Rattle.std.specs.Prelude.{◌≡◌, ◌<◌, ◌^◌, ◌∷◌, [], ◌++◌, length, map, IfOk, OnOk};
ghost use Rattle.flow_graph.specs.GraphView.{ending_view};
ghost use Rattle.flow_graph.specs.Nets.{targets, real, call_exit, arcs_out, arcs_from};
ghost use Rattle.flow_graph.specs.Nets.{net_of as net_seen};
ghost use Rattle.fake_arcs.specs.Tidy.{IsTidy};

use crate::targets::targets_of;
use cov_base::{ArcKind, FlowArc, Net, NoMemory, Refusal};
use flow_graph::{Block, Ending, Graph};
use std::alloc::{AllocError, Global};

/// The net of a graph: its blocks with their lines, an arc from the entry to block 2 and the arcs
/// out of each block, and a call-exit arc from each block that ends in a call or an exit.
pub fn net_of(alloc: Global, graph: &Graph) -> Result<Net, NoMemory>
    requires { IsTidy graph.now }
    ensures { IfOk result (λ n. n ≡ net_seen graph.now) }
{
    let arcs = arcs_of(alloc, &graph.blocks)?;
    let lines = lines_of(alloc, &graph.blocks)?;
    match Net::new(alloc, graph.blocks.len() as u32 + 2, arcs, lines) {
        Ok(net) => Ok(net),
        Err(Refusal::Refused(_)) => unreachable!(),
        Err(Refusal::NoMemory) => Err(NoMemory),
    }
}

fn arcs_of(alloc: Global, blocks: &[Block]) -> Result<Vec<FlowArc>, AllocError>
    requires { length blocks.now < 2 ^ 31 }
    ensures { IfOk result (λ v. v.items ≡ real 0 2 ∷ arcs_from 2 blocks.now) }
{
    let mut arcs = Vec::new(alloc);
    arcs.push(real_arc(0, 2))?;
    let mut number = 2;
    for block in blocks {
        put_arcs(alloc, number, &block.end, &mut arcs)?;
        number += 1;
    }
    Ok(arcs)
}

fn real_arc(from: u32, to: u32) -> FlowArc
    ensures { result ≡ real from to }
{
    FlowArc {
        from,
        to,
        kind: ArcKind::Real,
    }
}

fn put_arcs(
    alloc: Global,
    number: u32,
    end: &Ending,
    arcs: &mut Vec<FlowArc>,
) -> Result<(), AllocError>
    ensures { OnOk result
        (arcs.new.items ≡ arcs.old.items ++ arcs_out number (ending_view end.now)) }
{
    match end {
        Ending::Call(_, _, next) => {
            put_exit(number, arcs)?;
            arcs.push(real_arc(number, *next))?;
            Ok(())
        }
        Ending::Return => {
            arcs.push(real_arc(number, 1))?;
            Ok(())
        }
        Ending::Exit => put_exit(number, arcs),
        _ => put_targets(alloc, number, end, arcs),
    }
}

fn put_exit(number: u32, arcs: &mut Vec<FlowArc>) -> Result<(), AllocError>
    ensures { OnOk result (arcs.new.items ≡ arcs.old.items ++ call_exit number ∷ []) }
{
    arcs.push(FlowArc {
        from: number,
        to: 1,
        kind: ArcKind::CallExit,
    })?;
    Ok(())
}

fn put_targets(
    alloc: Global,
    number: u32,
    end: &Ending,
    arcs: &mut Vec<FlowArc>,
) -> Result<(), AllocError>
    ensures { OnOk result (arcs.new.items
        ≡ arcs.old.items ++ map (real number) (targets (ending_view end.now))) }
{
    let found = targets_of(alloc, end)?;
    for target in &found {
        arcs.push(real_arc(number, *target))?;
    }
    Ok(())
}

fn lines_of(alloc: Global, blocks: &[Block]) -> Result<Vec<Vec<u32>>, AllocError>
    ensures { IfOk result
        (λ v. map (λ l. l.items) v.items ≡ [] ∷ [] ∷ map (λ b. b.lines) blocks.now) }
{
    let mut lines = Vec::new(alloc);
    lines.push(Vec::new(alloc))?;
    lines.push(Vec::new(alloc))?;
    for block in blocks {
        lines.push(Vec::from_slice(alloc, &block.lines)?)?;
    }
    Ok(lines)
}
