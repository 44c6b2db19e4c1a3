//! The blocks that an ending leads to.

ghost use Rattle.std.specs.Prelude.{◌≡◌, ◌∷◌, [], map, IfOk};
ghost use Rattle.flow_graph.specs.Graph.{Ending as EndingSeen};
ghost use Rattle.flow_graph.specs.GraphView.{ending_view};
ghost use Rattle.flow_graph.specs.Nets.{targets};

use flow_graph::Ending;
use std::alloc::{AllocError, Global};

/// The blocks that an ending leads to, one for each, ascending.
pub fn targets_of(alloc: Global, end: &Ending) -> Result<Vec<u32>, AllocError>
    ensures { IfOk result (λ v. v.items ≡ targets (ending_view end.now)) }
{
    match end {
        Ending::Jump(target) => single(alloc, *target),
        Ending::Back(target) => single(alloc, *target),
        Ending::Branch(one, other) => both(alloc, *one, *other),
        Ending::Switch(cases, default) => distinct(alloc, cases, *default),
        Ending::Call(_, _, next) => single(alloc, *next),
        Ending::Return => Ok(Vec::new(alloc)),
        Ending::Exit => Ok(Vec::new(alloc)),
    }
}

fn single(alloc: Global, target: u32) -> Result<Vec<u32>, AllocError>
    ensures { IfOk result (λ v. v.items ≡ target ∷ []) }
{
    let mut found = Vec::new(alloc);
    found.push(target)?;
    Ok(found)
}

fn both(alloc: Global, one: u32, other: u32) -> Result<Vec<u32>, AllocError>
    ensures { IfOk result (λ v. v.items ≡ targets (EndingSeen.Branch one other)) }
{
    let mut found = Vec::new(alloc);
    if one < other {
        found.push(one)?;
        found.push(other)?;
        return Ok(found);
    }
    found.push(other)?;
    if other < one {
        found.push(one)?;
    }
    Ok(found)
}

fn distinct(alloc: Global, cases: &[(i128, u32)], default: u32) -> Result<Vec<u32>, AllocError>
    ensures { IfOk result
        (λ v. v.items ≡ targets (EndingSeen.Switch (map (λ c. (c.0, c.1)) cases.now) default)) }
{
    let mut found = Vec::new(alloc);
    for case in cases {
        found.push(case.1)?;
    }
    found.push(default)?;
    found.sort_unstable();
    found.dedup();
    Ok(found)
}
