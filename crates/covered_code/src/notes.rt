//! The notes of graphs.

ghost use Rattle.std.specs.Prelude.{◌≡◌, map, IfOk};
ghost use Rattle.std.specs.List.{All};
ghost use Rattle.fake_arcs.specs.Tidy.{IsTidy};
ghost use Rattle.covered_code.specs.UnitNotes.{HasWord};
ghost use Rattle.covered_code.specs.UnitNotes as spec;

use c_tree::Ident;
use cov_base::NoMemory;
use fake_arcs::net_of;
use flow_graph::Graph;
use gcno_format::{FunctionNotes, checksum_of};
use std::alloc::Global;

/// The notes of these graphs, in order.
pub fn functions_of(alloc: Global, graphs: &[Graph]) -> Result<Vec<FunctionNotes>, NoMemory>
    requires { All IsTidy graphs.now }
    ensures value { IfOk result (λ v. v.items ≡ map spec.function_of graphs.now) }
    ensures words { IfOk result (λ v. All HasWord v.items) }
{
    let mut functions = Vec::new(alloc);
    for graph in graphs {
        functions.push(function_of(alloc, graph)?)?;
    }
    Ok(functions)
}

fn function_of(alloc: Global, graph: &Graph) -> Result<FunctionNotes, NoMemory>
    requires { IsTidy graph.now }
    ensures value { IfOk result (λ f. f ≡ spec.function_of graph.now) }
    ensures word { IfOk result (λ f. HasWord f) }
{
    let name = Ident::of(alloc, graph.name.bytes())?;
    let net = net_of(alloc, graph)?;
    let checksum = checksum_of(alloc, &net)?;
    Ok(FunctionNotes {
        name,
        line: graph.line,
        checksum,
        net,
    })
}
