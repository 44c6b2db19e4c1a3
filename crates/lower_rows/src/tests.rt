//! Texts with the blocks of their graphs and what their runs come to.

mod graphs;
mod interpreter;
mod tables;

use crate::runs::{RUNS, Row};
use crate::{LoweredFault, lowered_of_text};
use c_lower::LowerFault;
use cov_base::{Refusal, SOURCE_LIMIT};
use flow_graph::{Block, Graph};
use interpreter::{Stop, run};
use std::alloc::{AllocError, Global};
use std::process::Abort;
use std::test::Fail;

/// More blocks than any run of these tests has.
const MOST_BLOCKS: u64 = 1_000_000;

/// A block with its number: its operations, its ending and its lines.
fn push_block(
    alloc: Global,
    text: &mut String,
    number: u32,
    block: &Block,
) -> Result<(), AllocError> {
    text.push_str(format!(in alloc; "{number}: ")?.as_str())?;
    for op in &block.ops {
        text.push_str(format!(in alloc; "{op:?} ")?.as_str())?;
    }
    let end = &block.end;
    text.push_str(format!(in alloc; "{end:?} |")?.as_str())?;
    for line in &block.lines {
        text.push_str(format!(in alloc; " {line}")?.as_str())?;
    }
    text.push_str("\n")?;
    Ok(())
}

/// The blocks of a graph, one a line.
fn shown(alloc: Global, graph: &Graph) -> Result<String, AllocError> {
    let mut text = String::new(alloc);
    let mut number = 2u32;
    for block in &graph.blocks {
        push_block(alloc, &mut text, number, block)?;
        number = number.saturating_add(1);
    }
    Ok(text)
}

/// Asserts the blocks of all graphs of a text, an empty line between two.
fn assert_graphs(rt: &(impl AllocGlobal + Abort), text: &[u8], expected: &str) -> Result<(), Fail> {
    assert!(rt; text.len() <= SOURCE_LIMIT);
    let Ok(unit) = lowered_of_text(rt.alloc(), text) else {
        panic!(rt; "no graphs of {text:?}");
    };
    let mut found = String::new(rt.alloc());
    for graph in &unit.graphs {
        if !found.is_empty() {
            found.push_str("\n")?;
        }
        found.push_str(shown(rt.alloc(), graph)?.as_str())?;
    }
    assert_eq!(rt; found.as_str(), expected, "of {text:?}");
    Ok(())
}

/// Asserts the blocks of the last graph of a main function with these statements.
fn assert_blocks(rt: &(impl AllocGlobal + Abort), text: &str, expected: &str) -> Result<(), Fail> {
    let mut whole = String::from_str(rt.alloc(), tables::BEFORE)?;
    whole.push_str(text)?;
    whole.push_str(" }")?;
    assert!(rt; whole.as_bytes().len() <= SOURCE_LIMIT);
    let Ok(unit) = lowered_of_text(rt.alloc(), whole.as_bytes()) else {
        panic!(rt; "no graphs of {text:?}");
    };
    let Some(graph) = unit.graphs.last() else {
        panic!(rt; "no graph of {text:?}");
    };
    let found = shown(rt.alloc(), graph)?;
    assert_eq!(rt; found.as_str(), expected, "of {text:?}");
    Ok(())
}

fn assert_tables(rt: &(impl AllocGlobal + Abort), rows: &[(&str, &str)]) -> Result<(), Fail> {
    for (text, blocks) in rows {
        assert_blocks(rt, text, blocks)?;
    }
    Ok(())
}

#[test]
fn each_value_has_its_operations(rt: HostRuntime) -> Result<(), Fail> {
    assert_tables(&rt, &tables::VALUES)
}

#[test]
fn each_condition_has_its_blocks(rt: HostRuntime) -> Result<(), Fail> {
    assert_tables(&rt, &tables::CONDITIONS)
}

#[test]
fn each_statement_has_its_blocks(rt: HostRuntime) -> Result<(), Fail> {
    assert_tables(&rt, &tables::STATEMENTS)
}

#[test]
fn breaks_and_continues_go_where_they_should(rt: HostRuntime) -> Result<(), Fail> {
    assert_tables(&rt, &tables::JUMPS)
}

#[test]
fn sources_have_their_graphs(rt: HostRuntime) -> Result<(), Fail> {
    for (text, blocks) in &graphs::GRAPHS {
        assert_graphs(&rt, text, blocks)?;
    }
    Ok(())
}

fn assert_fault(rt: &(impl AllocGlobal + Abort), text: &[u8], fault: LowerFault) {
    assert!(rt; text.len() <= SOURCE_LIMIT);
    match lowered_of_text(rt.alloc(), text) {
        Err(Refusal::Refused(found)) => {
            assert_eq!(rt; found, LoweredFault::Lower(fault), "of {text:?}")
        }
        _ => panic!(rt; "no fault of {text:?}"),
    }
}

#[test]
fn large_frames_and_globals_are_refused(rt: HostRuntime) {
    let rows: [(&[u8], LowerFault); 4] = [
        (
            b"int main(void) { int a[4097]; }",
            LowerFault::FrameTooLarge(0, 4097),
        ),
        (
            b"int f(int a, int b) { char c[4095]; return a; } int main(void) {}",
            LowerFault::FrameTooLarge(0, 4097),
        ),
        (
            b"void f() {} int main(void) { { int a[4096]; } { int a[2]; } }",
            LowerFault::FrameTooLarge(1, 4098),
        ),
        (
            b"int a[1048576]; int b; int main(void) { int a[4097]; }",
            LowerFault::GlobalsTooLarge(1_048_577),
        ),
    ];
    for (text, fault) in rows {
        assert_fault(&rt, text, fault);
    }
}

#[test]
fn full_frames_and_globals_are_lowered(rt: HostRuntime) {
    let text: &[u8] = b"int a[1048575], b; int main(void) { int c[4095], d; }";
    assert!(rt; text.len() <= SOURCE_LIMIT);
    match lowered_of_text(rt.alloc(), text) {
        Ok(unit) => assert_eq!(rt; unit.globals.len(), 1_048_576),
        Err(_) => panic!(rt; "no graphs of {text:?}"),
    }
}

fn assert_run(rt: &(impl AllocGlobal + Abort), row: &Row) -> Result<(), Fail> {
    let text = row.text;
    assert!(rt; text.len() <= SOURCE_LIMIT);
    let Ok(unit) = lowered_of_text(rt.alloc(), text) else {
        panic!(rt; "no graphs of {text:?}");
    };
    let (output, stop) = run(rt.alloc(), &unit, row.input, row.turns, MOST_BLOCKS)?;
    assert_eq!(rt; output.as_slice(), row.output, "of {text:?}");
    assert_eq!(rt; stop, Stop::Over(row.ending), "of {text:?}");
    Ok(())
}

#[test]
fn runs_come_to_these_endings(rt: HostRuntime) -> Result<(), Fail> {
    for row in &RUNS {
        assert_run(&rt, row)?;
    }
    Ok(())
}
