//! Readers of the records of arcs and of lines, and of the records of a file one after another.

ghost use Rattle.std.specs.Prelude.{◌≡◌, ◌<◌, IfOk};
ghost use Rattle.gcov_items.specs.Items.{left};
ghost use Rattle.gcov_records.specs.Reading.{Gives, each, word};
ghost use Rattle.gcno_format.specs.Layout as seen;
ghost use Rattle.gcno_format.specs.Reading as spec;

use crate::heads::take_head;
use crate::layout::{Layout, LinesRecord, Progress};
use crate::marks::Marked;
use crate::{ARC_TAG, FUNCTION_TAG, LINE_TAG};
use cov_base::Refusal;
use gcov_items::Reader;
use gcov_records::{FileFault, take_word};
use std::alloc::{AllocError, Global};

/// Records up to the end, but at most so many.
pub fn take_records(
    alloc: Global,
    reader: &mut Reader<'_>,
    progress: Progress,
    most: u64,
) -> Result<Progress, Refusal<FileFault>>
    ensures { Gives (λ p. p) (spec.records most progress) reader.old reader.new result }
{
    let mut progress = progress;
    for _ in 0..most {
        if is_over(reader, &progress) {
            return Ok(progress);
        }
        progress = take_record(alloc, reader, progress)?;
    }
    Ok(progress)
}

/// Whether no function is due and no byte is left.
fn is_over(reader: &Reader<'_>, progress: &Progress) -> bool
    ensures { result ≡ spec.is_over progress.entry.now (left reader.now) }
{
    !(progress.next < progress.count) && reader.left() == 0
}

/// The next record.
fn take_record(
    alloc: Global,
    reader: &mut Reader<'_>,
    progress: Progress,
) -> Result<Progress, Refusal<FileFault>>
    ensures { Gives (λ p. p) (spec.next_record progress) reader.old reader.new result }
{
    let place = reader.place();
    let tag = take_word(reader)?;
    take_by_tag(alloc, reader, progress, place, tag)
}

/// The record with this tag, which stands at this place.
fn take_by_tag(
    alloc: Global,
    reader: &mut Reader<'_>,
    progress: Progress,
    place: u64,
    tag: u32,
) -> Result<Progress, Refusal<FileFault>>
    ensures { Gives (λ p. p) (spec.by_tag progress place tag) reader.old reader.new result }
{
    if tag == ARC_TAG && progress.now.lines.is_empty() {
        return take_arcs(alloc, reader, progress);
    }
    if tag == LINE_TAG {
        return take_lines(alloc, reader, progress, place);
    }
    if tag == FUNCTION_TAG && progress.next < progress.count {
        return take_function(alloc, reader, progress, place);
    }
    Err(Refusal::Refused(wrong_tag(&progress, place)))
}

/// The fault of a record that may not stand here.
fn wrong_tag(progress: &Progress, place: u64) -> FileFault
    ensures { result ≡ spec.wrong_tag progress.entry.now place }
{
    if progress.next < progress.count {
        FileFault::Tag(place)
    } else {
        FileFault::Extra(place)
    }
}

/// The function with a further record of arcs.
fn take_arcs(
    alloc: Global,
    reader: &mut Reader<'_>,
    progress: Progress,
) -> Result<Progress, Refusal<FileFault>>
    ensures { Gives (λ p. p) (spec.arcs_into progress) reader.old reader.new result }
{
    let (block, arcs) = take_leaving(alloc, reader, progress.arcs_from)?;
    let added = with_arcs(progress, block, &arcs)?;
    Ok(added)
}

/// A block that is at least this, and the arcs that leave it.
fn take_leaving(
    alloc: Global,
    reader: &mut Reader<'_>,
    least: u64,
) -> Result<(u32, Vec<Marked>), Refusal<FileFault>>
    ensures { Gives (λ l. record { block = l.0; arcs = l.1.items }) (spec.leaving_at least)
        reader.old reader.new result }
{
    let size = take_arcs_size(reader)?;
    let block = take_block(reader, least)?;
    let arcs = take_ways(alloc, reader, block, size / 8)?;
    Ok((block, arcs))
}

fn take_arcs_size(reader: &mut Reader<'_>) -> Result<u32, Refusal<FileFault>>
    ensures { Gives (λ n. n) spec.arcs_size reader.old reader.new result }
{
    let place = reader.place();
    let size = take_word(reader)?;
    if size < 12 || size % 8 != 4 {
        return Err(Refusal::Refused(FileFault::Length(place)));
    }
    Ok(size)
}

/// A block that is at least this.
fn take_block(reader: &mut Reader<'_>, least: u64) -> Result<u32, Refusal<FileFault>>
    ensures { Gives (λ n. n) (spec.ordered least) reader.old reader.new result }
{
    let place = reader.place();
    let block = take_word(reader)?;
    if u64::from(block) < least {
        return Err(Refusal::Refused(FileFault::Order(place)));
    }
    Ok(block)
}

fn take_ways(
    alloc: Global,
    reader: &mut Reader<'_>,
    block: u32,
    count: u32,
) -> Result<Vec<Marked>, Refusal<FileFault>>
    ensures { Gives (λ v. v.items) (each 0 count (spec.way block)) reader.old reader.new result }
{
    let mut arcs = Vec::new(alloc);
    for _ in 0..count {
        arcs.push(take_way(reader, block)?)?;
    }
    Ok(arcs)
}

fn take_way(reader: &mut Reader<'_>, block: u32) -> Result<Marked, Refusal<FileFault>>
    ensures { Gives (λ m. m) (spec.way block 0) reader.old reader.new result }
{
    let to = take_word(reader)?;
    let flags = take_word(reader)?;
    Ok(Marked {
        from: block,
        to,
        flags,
    })
}

/// The arcs are added to the function.
fn with_arcs(progress: Progress, block: u32, arcs: &[Marked]) -> Result<Progress, AllocError>
    ensures { IfOk result
        (λ p. p ≡ seen.with_arcs progress (record { block = block; arcs = arcs.now })) }
{
    let Progress {
        before,
        now,
        next,
        count,
        lines_from,
        ..
    } = progress;
    let now = more_arcs(now, arcs)?;
    Ok(Progress {
        before,
        now,
        next,
        count,
        arcs_from: u64::from(block) + 1,
        lines_from,
    })
}

fn more_arcs(layout: Layout, added: &[Marked]) -> Result<Layout, AllocError>
    ensures { IfOk result (λ l. l ≡ seen.more_arcs layout added.now) }
{
    let Layout {
        place,
        name,
        line,
        checksum,
        blocks,
        mut arcs,
        lines,
    } = layout;
    arcs.extend_from_slice(added)?;
    Ok(Layout {
        place,
        name,
        line,
        checksum,
        blocks,
        arcs,
        lines,
    })
}

/// The function with a further record of lines, which begins at this place.
fn take_lines(
    alloc: Global,
    reader: &mut Reader<'_>,
    progress: Progress,
    place: u64,
) -> Result<Progress, Refusal<FileFault>>
    ensures { Gives (λ p. p) (spec.lines_into progress place) reader.old reader.new result }
{
    let told = take_record_of_lines(alloc, reader, place, progress.lines_from)?;
    let added = with_lines(progress, told)?;
    Ok(added)
}

/// A block that is at least this, and its lines, in a record that begins at this place.
fn take_record_of_lines(
    alloc: Global,
    reader: &mut Reader<'_>,
    place: u64,
    least: u64,
) -> Result<LinesRecord, Refusal<FileFault>>
    ensures { Gives (λ r. r) (spec.lines_at place least) reader.old reader.new result }
{
    let size = take_lines_size(reader)?;
    let block = take_block(reader, least)?;
    let lines = take_words(alloc, reader, size / 4 - 1)?;
    Ok(LinesRecord {
        place,
        block,
        lines,
    })
}

fn take_lines_size(reader: &mut Reader<'_>) -> Result<u32, Refusal<FileFault>>
    ensures gives { Gives (λ n. n) spec.lines_size reader.old reader.new result }
    ensures least { IfOk result (λ n. 7 < n) }
{
    let place = reader.place();
    let size = take_word(reader)?;
    if size < 8 || size % 4 != 0 {
        return Err(Refusal::Refused(FileFault::Length(place)));
    }
    Ok(size)
}

fn take_words(
    alloc: Global,
    reader: &mut Reader<'_>,
    count: u32,
) -> Result<Vec<u32>, Refusal<FileFault>>
    ensures { Gives (λ v. v.items) (each 0 count (λ i. word)) reader.old reader.new result }
{
    let mut words = Vec::new(alloc);
    for _ in 0..count {
        words.push(take_word(reader)?)?;
    }
    Ok(words)
}

/// The record is added to the function.
fn with_lines(progress: Progress, added: LinesRecord) -> Result<Progress, AllocError>
    ensures { IfOk result (λ p. p ≡ seen.with_lines progress added) }
{
    let Progress {
        before,
        now,
        next,
        count,
        arcs_from,
        ..
    } = progress;
    let lines_from = u64::from(added.block) + 1;
    let now = more_lines(now, added)?;
    Ok(Progress {
        before,
        now,
        next,
        count,
        arcs_from,
        lines_from,
    })
}

fn more_lines(layout: Layout, added: LinesRecord) -> Result<Layout, AllocError>
    ensures { IfOk result (λ l. l ≡ seen.more_lines layout added) }
{
    let Layout {
        place,
        name,
        line,
        checksum,
        blocks,
        arcs,
        mut lines,
    } = layout;
    lines.push(added)?;
    Ok(Layout {
        place,
        name,
        line,
        checksum,
        blocks,
        arcs,
        lines,
    })
}

/// The next function, whose record begins at this place.
fn take_function(
    alloc: Global,
    reader: &mut Reader<'_>,
    progress: Progress,
    place: u64,
) -> Result<Progress, Refusal<FileFault>>
    requires { progress.next < progress.count }
    ensures { Gives (λ p. p) (spec.function_into progress place) reader.old reader.new result }
{
    let now = take_head(alloc, reader, progress.next, place)?;
    let next = progress.next + 1;
    let count = progress.count;
    let before = all_begun(progress)?;
    Ok(begun(before, now, next, count))
}

/// The functions that were begun.
pub fn all_begun(progress: Progress) -> Result<Vec<Layout>, AllocError>
    ensures { IfOk result (λ v. v.items ≡ seen.all_begun progress) }
{
    let Progress {
        mut before,
        now,
        ..
    } = progress;
    before.push(now)?;
    Ok(before)
}

/// A function that was begun.
pub fn begun(before: Vec<Layout>, now: Layout, next: u32, count: u32) -> Progress
    ensures { result ≡ seen.begun before.items now next count }
{
    Progress {
        before,
        now,
        next,
        count,
        arcs_from: 0,
        lines_from: 0,
    }
}
