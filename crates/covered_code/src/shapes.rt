//! What the functions of a code that counts are made by.

ghost use Rattle.std.specs.Prelude.{◌≤◌, IfOk};
ghost use Rattle.std.specs.List.{All};
ghost use Rattle.fake_arcs.specs.Tidy.{IsTidy};
ghost use Rattle.covered_code.specs.Shapes.{IsMade, AreMade};

use crate::listed::listed_rows;
use arc_counters::number;
use cov_base::NoMemory;
use fake_arcs::net_of;
use flow_graph::Graph;
use gcno_format::checksum_of;
use span_tree::tree_of;
use stack_code::Shape;
use std::alloc::Global;

/// The shapes of these graphs, in order.
pub fn shapes_of(alloc: Global, graphs: &[Graph], limit: u32) -> Result<Vec<Shape>, NoMemory>
    requires limit { limit ≤ 65536 }
    requires tidy { All IsTidy graphs.now }
    ensures { IfOk result (λ v. AreMade limit graphs.now v.items) }
{
    let mut shapes = Vec::new(alloc);
    for graph in graphs {
        shapes.push(shape_of(alloc, graph, limit)?)?;
    }
    Ok(shapes)
}

fn shape_of(alloc: Global, graph: &Graph, limit: u32) -> Result<Shape, NoMemory>
    requires limit { limit ≤ 65536 }
    requires tidy { IsTidy graph.now }
    ensures { IfOk result (λ s. IsMade limit graph.now s) }
{
    let net = net_of(alloc, graph)?;
    let tree = tree_of(alloc, &net)?;
    let plan = number(alloc, &net, &tree)?;
    let listed = listed_rows(alloc, &net, limit)?;
    let checksum = checksum_of(alloc, &net)?;
    Ok(Shape {
        net,
        plan,
        rows: listed.rows,
        paths: listed.paths,
        checksum,
    })
}
