//! The nets of a unit's pruned graphs.

ghost use Rattle.std.specs.Prelude.{◌≡◌, ◌<◌, ◌^◌, None, true, length, map, IfErr, IfOk};
ghost use Rattle.flow_graph.specs.Nets.{pruned, net_of as net_seen};
ghost use Rattle.fake_arcs.specs.Size.{size_fault};
ghost use Rattle.net_rows.specs.UnitNets.{RefusesSize};
ghost use Rattle.net_rows.specs.WellMade.{unit_made};

use cov_base::{Net, NoMemory, Refusal};
use fake_arcs::{SizeFault, net_of, prune};
use flow_graph::GraphUnit;
use std::alloc::Global;

/// Prunes a unit and makes the net of each graph.
pub fn nets_of(alloc: Global, unit: &GraphUnit) -> Result<Vec<Net>, Refusal<SizeFault>>
    requires few { length unit.now.graphs < 2 ^ 32 }
    requires made { unit_made unit.now ≡ true }
    ensures ok { IfOk result (λ nets. nets.items ≡ map net_seen (pruned unit.now).graphs) }
    ensures fits { IfOk result (λ _. size_fault unit.now ≡ None) }
    ensures err { IfErr result (RefusesSize unit.now) }
{
    let pruned = prune(alloc, unit)?;
    let mut nets = Vec::new(alloc);
    for graph in &pruned.graphs {
        match net_of(alloc, graph) {
            Ok(net) => nets.push(net)?,
            Err(NoMemory) => return Err(Refusal::NoMemory),
        }
    }
    Ok(nets)
}
