//! Texts with the arcs and lines of their graphs, and texts that aren't accepted.

mod rows;

use crate::{SourceFault, graphs_of};
use cov_base::{Refusal, SOURCE_LIMIT};
use fake_arcs::targets_of;
use flow_graph::{Block, Ending, Graph, GraphUnit};
use std::alloc::{AllocError, Global};
use std::process::Abort;
use std::test::Fail;

/// The arcs out of a block; a call-exit arc ends in an x.
fn push_arcs(alloc: Global, text: &mut String, from: u32, end: &Ending) -> Result<(), AllocError> {
    match end {
        Ending::Return => text.push_str(format!(in alloc; "{from}-1 ")?.as_str())?,
        Ending::Exit => text.push_str(format!(in alloc; "{from}-1x ")?.as_str())?,
        Ending::Call(_, _, next) => {
            text.push_str(format!(in alloc; "{from}-1x {from}-{next} ")?.as_str())?
        }
        _ => {
            let targets = targets_of(alloc, end)?;
            for target in &targets {
                text.push_str(format!(in alloc; "{from}-{target} ")?.as_str())?;
            }
        }
    }
    Ok(())
}

/// The lines of a block, behind its number.
fn push_lines(
    alloc: Global,
    text: &mut String,
    number: u32,
    block: &Block,
) -> Result<(), AllocError> {
    text.push_str(format!(in alloc; " {number}:")?.as_str())?;
    let mut first = true;
    for line in &block.lines {
        if !first {
            text.push_str(",")?;
        }
        first = false;
        text.push_str(format!(in alloc; "{line}")?.as_str())?;
    }
    Ok(())
}

/// A graph: its arcs, but for that from 0 to 2, and the lines of its blocks.
fn shown(alloc: Global, graph: &Graph) -> Result<String, AllocError> {
    let mut text = String::new(alloc);
    let mut number = 2u32;
    for block in &graph.blocks {
        push_arcs(alloc, &mut text, number, &block.end)?;
        number = number.saturating_add(1);
    }
    text.push_str("|")?;
    number = 2;
    for block in &graph.blocks {
        push_lines(alloc, &mut text, number, block)?;
        number = number.saturating_add(1);
    }
    Ok(text)
}

/// The graphs of a unit, one a line.
fn shown_all(alloc: Global, unit: &GraphUnit) -> Result<String, AllocError> {
    let mut text = String::new(alloc);
    for graph in &unit.graphs {
        text.push_str(shown(alloc, graph)?.as_str())?;
        text.push_str("\n")?;
    }
    Ok(text)
}

fn assert_graphs(rt: &(impl AllocGlobal + Abort), text: &[u8], expected: &str) -> Result<(), Fail> {
    assert!(rt; text.len() <= SOURCE_LIMIT);
    match graphs_of(rt.alloc(), text) {
        Ok(unit) => {
            let found = shown_all(rt.alloc(), &unit)?;
            assert_eq!(rt; found.as_str(), expected, "of {text:?}");
        }
        Err(_) => panic!(rt; "no graphs of {text:?}"),
    }
    Ok(())
}

fn assert_fault(rt: &(impl AllocGlobal + Abort), text: &[u8], expected: SourceFault) {
    assert!(rt; text.len() <= SOURCE_LIMIT);
    match graphs_of(rt.alloc(), text) {
        Err(Refusal::Refused(fault)) => assert_eq!(rt; fault, expected, "of {text:?}"),
        _ => panic!(rt; "no fault of {text:?}"),
    }
}

#[test]
fn texts_have_their_graphs(rt: HostRuntime) -> Result<(), Fail> {
    for (text, graphs) in &rows::GRAPHS {
        assert_graphs(&rt, text, graphs)?;
    }
    Ok(())
}

#[test]
fn texts_are_refused_with_their_faults(rt: HostRuntime) {
    for (text, fault) in &rows::FAULTS {
        assert_fault(&rt, text, *fault);
    }
}
