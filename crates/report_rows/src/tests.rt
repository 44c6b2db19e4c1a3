//! What the tests share: programs with what their runs left, and the report on them.

ghost use Rattle.std.specs.Prelude.{◌≡◌, ◌≤◌, length};

mod faults;
mod texts;

use crate::{counts_fit, report_of};
use c_tree::Ident;
use cov_base::{ArcKind, FlowArc, Net, Refusal};
use gcda_format::{Data, FunctionData};
use gcno_format::{FunctionNotes, Notes};
use path_report::TallyFault;
use std::alloc::{AllocError, Global};
use std::process::Abort;
use std::test::Fail;

/// A function: its name, how many blocks it has, its arcs with a mark on call-exit arcs, its lines,
/// each behind its block, and what runs left of it.
#[derive(Clone, Copy)]
struct Row<'a> {
    name: &'a str,
    blocks: u32,
    arcs: &'a [(u32, u32, bool)],
    lines: &'a [(u32, u32)],
    counters: &'a [u64],
    bits: &'a [u64],
}

/// The lists of lines of so many blocks.
fn lines_of(alloc: Global, blocks: u32, lines: &[(u32, u32)]) -> Result<Vec<Vec<u32>>, AllocError> {
    let mut lists = Vec::new(alloc);
    for block in 0..blocks {
        let mut list = Vec::new(alloc);
        for (of, line) in lines {
            if *of == block {
                list.push(*line)?;
            }
        }
        lists.push(list)?;
    }
    Ok(lists)
}

/// The net of a function; none where its parts make none.
fn net_of(alloc: Global, row: &Row<'_>) -> Result<Option<Net>, AllocError> {
    let mut arcs = Vec::new(alloc);
    for (from, to, leaves) in row.arcs {
        let kind = if *leaves {
            ArcKind::CallExit
        } else {
            ArcKind::Real
        };
        arcs.push(FlowArc {
            from: *from,
            to: *to,
            kind,
        })?;
    }
    let lines = lines_of(alloc, row.blocks, row.lines)?;
    if arcs.len() > 4096 || lines.len() > 512 {
        return Ok(None);
    }
    match Net::new(alloc, row.blocks, arcs, lines) {
        Ok(net) => Ok(Some(net)),
        Err(Refusal::NoMemory) => Err(AllocError),
        Err(Refusal::Refused(_)) => Ok(None),
    }
}

/// The notes of these functions; none where one has no net. The checksum of each is 7.
fn notes_of(alloc: Global, limit: u32, rows: &[Row<'_>]) -> Result<Option<Notes>, AllocError> {
    let mut functions = Vec::new(alloc);
    for row in rows {
        let Some(net) = net_of(alloc, row)? else {
            return Ok(None);
        };
        functions.push(FunctionNotes {
            name: Ident::of(alloc, row.name.as_bytes())?,
            line: 1,
            checksum: 7,
            net,
        })?;
    }
    Ok(Some(Notes {
        stamp: 1,
        limit,
        functions,
    }))
}

/// What so many runs left of these functions.
fn data_of(alloc: Global, runs: u32, rows: &[Row<'_>]) -> Result<Data, AllocError> {
    let mut functions = Vec::new(alloc);
    for row in rows {
        functions.push(FunctionData {
            checksum: 7,
            counters: Vec::from_slice(alloc, row.counters)?,
            bits: Vec::from_slice(alloc, row.bits)?,
        })?;
    }
    Ok(Data {
        stamp: 1,
        runs,
        functions,
    })
}

/// The report on a program, or the fault.
fn report(
    rt: &(impl AllocGlobal + Abort),
    name: &str,
    source: &str,
    notes: &Notes,
    data: &Data,
) -> Result<Result<Vec<u8>, TallyFault>, Fail> {
    assert!(rt; notes.limit <= 65_536);
    assert!(rt; notes.functions.len() <= 4_294_967_295);
    assert!(rt; data.functions.len() <= 4_294_967_295);
    assert!(rt; counts_fit(data));
    match report_of(rt.alloc(), name, source.as_bytes(), notes, data) {
        Ok(text) => Ok(Ok(text)),
        Err(Refusal::Refused(fault)) => Ok(Err(fault)),
        Err(Refusal::NoMemory) => panic!(rt; "no memory"),
    }
}
