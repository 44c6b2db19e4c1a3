//! The nets that records hold.

ghost use Rattle.std.specs.Prelude.{◌≡◌, ◌<◌, ◌^◌, length, map, IfOk};
ghost use Rattle.std.specs.Bool.{Decides};
ghost use Rattle.cov_base.specs.Net.{ascends as ascends_spec};
ghost use Rattle.gcno_format.specs.Marks as marks;
ghost use Rattle.gcno_format.specs.Values as spec;

use crate::arcs::sum_of;
use crate::layout::{File, Layout, LinesRecord};
use crate::marks::{Marked, marks_of};
use crate::notes::{FunctionNotes, Notes};
use c_tree::Ident;
use cov_base::{ARC_LIMIT, ArcKind, BLOCK_LIMIT, FlowArc, Net, Refusal};
use gcov_records::FileFault;
use std::alloc::{AllocError, Global};

/// The notes that the records hold.
pub fn notes_of(alloc: Global, file: &File) -> Result<Notes, Refusal<FileFault>>
    ensures { spec.AreNotes file.now result }
{
    let functions = functions_of(alloc, &file.functions)?;
    Ok(Notes {
        stamp: file.stamp,
        limit: file.limit,
        functions,
    })
}

fn functions_of(alloc: Global, layouts: &[Layout]) -> Result<Vec<FunctionNotes>, Refusal<FileFault>>
    ensures { spec.AreFunctions (λ v. v.items) layouts.now result }
{
    let mut functions = Vec::new(alloc);
    for layout in layouts {
        functions.push(function_of(alloc, layout)?)?;
    }
    Ok(functions)
}

fn function_of(alloc: Global, layout: &Layout) -> Result<FunctionNotes, Refusal<FileFault>>
    ensures { spec.IsFunction layout.now result }
{
    let bare = bare_net(alloc, layout)?;
    if let Some(place) = wrong_lines(layout.blocks, &layout.lines) {
        return Err(Refusal::Refused(FileFault::Net(place)));
    }
    let net = with_lines(alloc, &bare, layout)?;
    let name = Ident::of(alloc, layout.name.bytes())?;
    Ok(FunctionNotes {
        name,
        line: layout.line,
        checksum: layout.checksum,
        net,
    })
}

/// The net of the function's blocks and arcs, if they are those of a net with these flags and this
/// checksum.
fn bare_net(alloc: Global, layout: &Layout) -> Result<Net, Refusal<FileFault>>
    ensures { spec.IsBareNet layout.now result }
{
    let net = plain_net(alloc, layout)?;
    let arcs = match marks_of(alloc, &net) {
        Ok(arcs) => arcs,
        Err(_) => return Err(Refusal::NoMemory),
    };
    if !are_same(&arcs, &layout.arcs) {
        return Err(Refusal::Refused(FileFault::Net(layout.place)));
    }
    match sum_of(alloc, layout.blocks, &arcs) {
        Ok(sum) if sum == layout.checksum => Ok(net),
        Ok(_) => Err(Refusal::Refused(FileFault::Net(layout.place))),
        Err(_) => Err(Refusal::NoMemory),
    }
}

fn are_same(arcs: &[Marked], others: &[Marked]) -> bool
    ensures { Decides result (arcs.now ≡ others.now) }
{
    arcs == others
}

/// The net of the function's blocks and arcs, if they make one. No more memory is taken than for
/// as many blocks as a net may have, and for the arcs.
fn plain_net(alloc: Global, layout: &Layout) -> Result<Net, Refusal<FileFault>>
    ensures { spec.IsPlainNet layout.now result }
{
    if layout.blocks > BLOCK_LIMIT {
        return Err(Refusal::Refused(FileFault::Net(layout.place)));
    }
    let arcs = arcs_of(alloc, &layout.arcs)?;
    if arcs.len() > ARC_LIMIT {
        return Err(Refusal::Refused(FileFault::Net(layout.place)));
    }
    let lists = lists_of(alloc, layout.blocks, &[])?;
    match Net::new(alloc, layout.blocks, arcs, lists) {
        Ok(net) => Ok(net),
        Err(Refusal::Refused(_)) => Err(Refusal::Refused(FileFault::Net(layout.place))),
        Err(Refusal::NoMemory) => Err(Refusal::NoMemory),
    }
}

fn arcs_of(alloc: Global, arcs: &[Marked]) -> Result<Vec<FlowArc>, AllocError>
    ensures { IfOk result (λ v. v.items ≡ map marks.arc_of arcs.now) }
{
    let mut plain = Vec::new(alloc);
    for arc in arcs {
        plain.push(arc_of(arc))?;
    }
    Ok(plain)
}

fn arc_of(arc: &Marked) -> FlowArc
    ensures { result ≡ marks.arc_of arc.now }
{
    FlowArc {
        from: arc.from,
        to: arc.to,
        kind: kind_of(arc.flags),
    }
}

fn kind_of(flags: u32) -> ArcKind
    ensures { result ≡ marks.kind_of flags }
{
    if flags / 2 % 2 == 1 {
        ArcKind::CallExit
    } else {
        ArcKind::Real
    }
}

/// The place of the first record of lines that doesn't suit a net of so many blocks.
fn wrong_lines(blocks: u32, records: &[LinesRecord]) -> Option<u64>
    ensures { result ≡ spec.wrong_lines blocks records.now }
{
    for told in records {
        if !suits_net(blocks, told) {
            return Some(told.place);
        }
    }
    None
}

fn suits_net(blocks: u32, told: &LinesRecord) -> bool
    ensures { result ≡ spec.suits_net blocks told.now }
{
    2 <= told.block && told.block < blocks && ascends(&told.lines)
}

fn ascends(lines: &[u32]) -> bool
    ensures { result ≡ ascends_spec 0 lines.now }
{
    let mut before = 0;
    for line in lines {
        if *line <= before {
            return false;
        }
        before = *line;
    }
    true
}

/// The net with the lines of its blocks.
fn with_lines(alloc: Global, bare: &Net, layout: &Layout) -> Result<Net, Refusal<FileFault>>
    requires net { bare.now ≡ spec.bare_net layout.now }
    requires holds { spec.HoldsNet layout.now }
    ensures { spec.IsFullNet layout.now result }
{
    let arcs = Vec::from_slice(alloc, bare.arcs())?;
    let lists = lists_of(alloc, bare.blocks(), &layout.lines)?;
    match Net::new(alloc, bare.blocks(), arcs, lists) {
        Ok(net) => Ok(net),
        Err(Refusal::Refused(_)) => unreachable!(),
        Err(Refusal::NoMemory) => Err(Refusal::NoMemory),
    }
}

/// The lines of each block.
fn lists_of(
    alloc: Global,
    blocks: u32,
    records: &[LinesRecord],
) -> Result<Vec<Vec<u32>>, AllocError>
    ensures { IfOk result (λ v. map (λ w. w.items) v.items ≡ spec.lists_from 0 blocks records.now) }
{
    let mut lists = Vec::new(alloc);
    for block in 0..blocks {
        lists.push(lines_of(alloc, block, records)?)?;
    }
    Ok(lists)
}

/// The lines of a block.
fn lines_of(alloc: Global, block: u32, records: &[LinesRecord]) -> Result<Vec<u32>, AllocError>
    ensures { IfOk result (λ v. v.items ≡ spec.lines_of block records.now) }
{
    for told in records {
        if told.block == block {
            return Vec::from_slice(alloc, &told.lines);
        }
    }
    Ok(Vec::new(alloc))
}
