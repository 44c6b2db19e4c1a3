//! What the tests share: units of one graph, and the text of a net with its tree and its counters.

ghost use Rattle.std.specs.Prelude.{◌≡◌, ◌<◌, ◌^◌, length, IfOk};

mod limits;
mod nets;

use crate::{is_well_made, nets_of};
use arc_counters::number;
use c_tree::Ident;
use cov_base::{ArcKind, Net, Refusal};
use fake_arcs::SizeFault;
use flow_graph::{Block, Ending, Graph, GraphUnit};
use span_tree::tree_of;
use std::alloc::{AllocError, Global};
use std::process::Abort;
use std::test::Fail;

/// A block without operations.
fn block(alloc: Global, end: Ending, lines: &[u32]) -> Result<Block, AllocError> {
    Ok(Block {
        ops: Vec::new(alloc),
        end,
        lines: Vec::from_slice(alloc, lines)?,
    })
}

/// A unit of one graph with these blocks.
fn unit_with(alloc: Global, blocks: Vec<Block>) -> Result<GraphUnit, AllocError>
    ensures { IfOk result (λ unit. length unit.graphs ≡ 1) }
{
    let mut graphs = Vec::new(alloc);
    graphs.push(Graph {
        name: Ident::of(alloc, b"main")?,
        line: 1,
        params: 0,
        cells: 0,
        gives: true,
        blocks,
    })?;
    Ok(GraphUnit {
        globals: Vec::new(alloc),
        main: 0,
        graphs,
    })
}

/// The arcs, of which call-exit arcs end in an x; the blocks in order of arrival; and each counter
/// with its arc.
fn shown(alloc: Global, net: &Net) -> Result<String, Fail> {
    let tree = tree_of(alloc, net)?;
    let plan = number(alloc, net, &tree)?;
    let mut text = String::new(alloc);
    let mut counters = String::new(alloc);
    let mut index = 0u32;
    for arc in net.arcs() {
        let mark = if arc.kind == ArcKind::CallExit {
            "x"
        } else {
            ""
        };
        text.push_str(format!(in alloc; "{}-{}{mark} ", arc.from, arc.to)?.as_str())?;
        if let Some(counter) = plan.counter(index) {
            counters.push_str(format!(in alloc; " {counter}:{}-{}", arc.from, arc.to)?.as_str())?;
        }
        index = index.saturating_add(1);
    }
    text.push_str("|")?;
    for block in tree.order() {
        text.push_str(format!(in alloc; " {block}")?.as_str())?;
    }
    text.push_str(" |")?;
    text.push_str(counters.as_str())?;
    Ok(text)
}

/// Asserts the text of the only net of a unit.
fn assert_net(rt: &(impl AllocGlobal + Abort), unit: &GraphUnit, expected: &str) -> Result<(), Fail>
    requires { length unit.now.graphs ≡ 1 }
{
    let made = is_well_made(rt.alloc(), unit)?;
    assert!(rt; made);
    match nets_of(rt.alloc(), unit) {
        Ok(nets) => {
            assert_eq!(rt; nets.len(), 1);
            let text = shown(rt.alloc(), &nets[0])?;
            assert_eq!(rt; text.as_str(), expected);
        }
        Err(_) => panic!(rt; "no nets"),
    }
    Ok(())
}

/// Asserts what becomes of a unit: its first fault, or none.
fn assert_size(
    rt: &(impl AllocGlobal + Abort),
    unit: &GraphUnit,
    expected: Option<SizeFault>,
) -> Result<(), Fail>
    requires { length unit.now.graphs ≡ 1 }
{
    let made = is_well_made(rt.alloc(), unit)?;
    assert!(rt; made);
    match nets_of(rt.alloc(), unit) {
        Ok(_) => assert_eq!(rt; None, expected),
        Err(Refusal::Refused(fault)) => assert_eq!(rt; Some(fault), expected),
        Err(Refusal::NoMemory) => panic!(rt; "no memory"),
    }
    Ok(())
}
