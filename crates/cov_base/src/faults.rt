//! The first fault of blocks, arcs and lines that make no net.

ghost use Rattle.std.specs.Prelude.{◌≡◌, ◌^◌, ◌<◌, ◌≤◌, length, map, position, IfSome};
ghost use Rattle.cov_base.specs.Net as spec;
ghost use Rattle.cov_base.specs.Net.{Finds};

use crate::limits::{ARC_LIMIT, BLOCK_LIMIT};
use crate::net::{ArcKind, FlowArc, NetFault};
use crate::reach::first_apart;
use std::alloc::{AllocError, Global};

/// The entry, the exit and one block between them.
const LEAST_BLOCKS: u32 = 3;

/// The first fault in the order of `NetFault`, or `None` where the parts make a net.
pub fn first_fault(
    alloc: Global,
    blocks: u32,
    arcs: &[FlowArc],
    lines: &[Vec<u32>],
) -> Result<Option<NetFault>, AllocError>
    requires arcs_fit { length arcs.now < 2 ^ 32 }
    requires lines_fit { length lines.now < 2 ^ 32 }
    ensures { Finds
        (record { blocks = blocks; arcs = arcs.now; lines = map (λ v. v.items) lines.now })
        result }
{
    if let Some(fault) = shape_fault(blocks, arcs, lines) {
        return Ok(Some(fault));
    }
    let apart = first_apart(alloc, blocks, arcs)?;
    Ok(apart.map(NetFault::Apart))
}

fn shape_fault(blocks: u32, arcs: &[FlowArc], lines: &[Vec<u32>]) -> Option<NetFault>
    requires arcs_fit { length arcs.now < 2 ^ 32 }
    requires lines_fit { length lines.now < 2 ^ 32 }
    ensures { result
        ≡ spec.shape_fault
        (record { blocks = blocks; arcs = arcs.now; lines = map (λ v. v.items) lines.now }) }
{
    if blocks < LEAST_BLOCKS || blocks > BLOCK_LIMIT {
        return Some(NetFault::Blocks(blocks));
    }
    if arcs.len() > ARC_LIMIT {
        return Some(NetFault::Arcs(arcs.len() as u32));
    }
    if let Some(i) = first_outside(blocks, arcs) {
        return Some(NetFault::Range(i as u32));
    }
    if let Some(i) = first_unordered(arcs) {
        return Some(NetFault::Order(i as u32));
    }
    if let Some(i) = first_wrong_entry(arcs) {
        return Some(NetFault::Entry(i as u32));
    }
    if let Some(i) = first_misplaced(arcs) {
        return Some(NetFault::Kind(i as u32));
    }
    let block = first_wrong_list(blocks, lines)?;
    Some(NetFault::Lines(block as u32))
}

fn first_outside(blocks: u32, arcs: &[FlowArc]) -> Option<usize>
    ensures value { result ≡ position (spec.is_outside blocks) arcs.now }
    ensures bound { IfSome result (λ i. i < length arcs.now) }
{
    arcs.iter().position(|arc| is_outside(blocks, arc))
}

fn is_outside(blocks: u32, arc: &FlowArc) -> bool
    ensures { result ≡ spec.is_outside blocks arc.now }
{
    arc.from >= blocks || arc.to >= blocks || arc.to == 0 || arc.from == 1
}

fn first_unordered(arcs: &[FlowArc]) -> Option<usize>
    ensures value { result ≡ spec.first_unordered arcs.now }
    ensures bound { IfSome result (λ i. i < length arcs.now) }
{
    let (first, rest) = arcs.split_first()?;
    let mut before = *first;
    for (i, arc) in rest.iter().enumerate() {
        if !is_above(arc, &before) {
            return Some(i + 1);
        }
        before = *arc;
    }
    None
}

fn is_above(arc: &FlowArc, before: &FlowArc) -> bool
    ensures { result ≡ spec.is_above arc.now before.now }
{
    before.from < arc.from || (before.from == arc.from && before.to < arc.to)
}

fn first_wrong_entry(arcs: &[FlowArc]) -> Option<usize>
    ensures value { result ≡ spec.first_wrong_entry arcs.now }
    ensures bound { IfSome result (λ i. i ≤ length arcs.now) }
{
    if has_entry(arcs) {
        first_wrong_end(arcs)
    } else {
        Some(0)
    }
}

fn first_wrong_end(arcs: &[FlowArc]) -> Option<usize>
    ensures value { result ≡ position spec.is_wrong_entry arcs.now }
    ensures bound { IfSome result (λ i. i < length arcs.now) }
{
    arcs.iter().position(|arc| is_wrong_entry(arc))
}

fn has_entry(arcs: &[FlowArc]) -> bool
    ensures { result ≡ spec.has_arc arcs.now 0 2 }
{
    arcs.iter().any(|arc| enters(arc))
}

fn enters(arc: &FlowArc) -> bool
    ensures { result ≡ spec.joins 0 2 arc.now }
{
    arc.from == 0 && arc.to == 2
}

fn is_wrong_entry(arc: &FlowArc) -> bool
    ensures { result ≡ spec.is_wrong_entry arc.now }
{
    if arc.from == 0 {
        arc.to != 2
    } else {
        arc.to == 2
    }
}

fn first_misplaced(arcs: &[FlowArc]) -> Option<usize>
    ensures value { result ≡ position spec.is_misplaced arcs.now }
    ensures bound { IfSome result (λ i. i < length arcs.now) }
{
    arcs.iter().position(|arc| is_misplaced(arc))
}

fn is_misplaced(arc: &FlowArc) -> bool
    ensures { result ≡ spec.is_misplaced arc.now }
{
    match arc.kind {
        ArcKind::Real => false,
        ArcKind::CallExit => arc.to != 1,
    }
}

fn first_wrong_list(blocks: u32, lines: &[Vec<u32>]) -> Option<usize>
    ensures value { result ≡ spec.first_wrong_list 0 blocks (map (λ v. v.items) lines.now) }
    ensures bound { IfSome result (λ b. b ≤ length lines.now) }
{
    for (block, list) in lines.iter().enumerate() {
        if block >= blocks as usize {
            return Some(block);
        }
        if !suits(block, list) {
            return Some(block);
        }
    }
    if lines.len() < blocks as usize {
        Some(lines.len())
    } else {
        None
    }
}

fn suits(block: usize, lines: &[u32]) -> bool
    ensures { result ≡ spec.suits block lines.now }
{
    if block < 2 {
        lines.is_empty()
    } else {
        ascends(lines)
    }
}

fn ascends(lines: &[u32]) -> bool
    ensures { result ≡ spec.ascends 0 lines.now }
{
    let mut before = 0;
    for line in lines {
        if *line <= before {
            return false;
        }
        before = *line;
    }
    true
}
