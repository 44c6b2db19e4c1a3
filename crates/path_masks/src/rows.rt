//! The rows of masks of a net and a list of its paths.

ghost use Rattle.std.specs.Prelude.{◌≡◌, ◌<◌, ◌≤◌, ◌^◌, ◌++◌, ◌∷◌, [], Some, None, length};
ghost use Rattle.std.specs.Prelude.{slice_index_or, slice_range, IfOk, IsSome, OnOk};
ghost use Rattle.word_rules.specs.WordRules.{begin_spelled};
ghost use Rattle.path_masks.specs.Masks as spec;
ghost use Rattle.path_masks.specs.Tables as tables;

use crate::chunk::{Chunk, width};
use crate::path_test::PathTest;
use cov_base::{ArcKind, FlowArc, Net, NoMemory};
use prime_paths::Paths;
use std::alloc::{AllocError, Global};
use std::marker::Model;

/// Where a row stands in the table.
#[derive(Clone, Copy)]
pub struct RowSpan {
    /// Its first place.
    pub from: usize,
    /// The place behind its last.
    pub to: usize,
}

/// The rows of masks: the one with which a walk begins, and one for each real arc between blocks
/// from 2 up.
#[derive(Drop)]
pub struct Rows {
    width: u32,
    table: Vec<u64>,
    begin: usize,
    spans: Vec<Option<RowSpan>>,
    numbers: Vec<Option<u32>>,
}

impl Model for Rows {
    ghost use Rattle.std.specs.Prelude.{◌<◌, ◌^◌, length};
    ghost use Rattle.path_masks.specs.Tables.{RowsValue, rows_view, IsTable, AreNumbers};

    ghost Value = { RowsValue };

    ghost view = { λ r. rows_view r.width r.table.items r.begin r.spans.items };

    ghost invariant = { λ r. IsTable r.table.items r.begin r.spans.items
        × AreNumbers r.spans.items r.numbers.items × (length r.spans.items < 2 ^ 32) };
}

/// The rows of the net and these paths.
pub fn rows_of(alloc: Global, net: &Net, paths: &Paths) -> Result<Rows, NoMemory>
    ensures { IfOk result (λ rows. tables.AreRows net.now.arcs paths.now rows) }
{
    let mut table = Vec::new(alloc);
    put_begin(alloc, paths, &mut table)?;
    let begin = table.len();
    let mut spans = Vec::new(alloc);
    for arc in net.arcs() {
        put_arc(alloc, paths, arc, &mut table, &mut spans)?;
    }
    let numbers = numbers_of(alloc, &spans)?;
    Ok(Rows {
        width: width(paths),
        table,
        begin,
        spans,
        numbers,
    })
}

fn put_begin_entry(chunk: &Chunk<'_>, word: u32, longs: &mut Vec<u64>) -> Result<(), AllocError>
    ensures { OnOk result
        (longs.new.items
        ≡ longs.old.items ++ tables.begin_longs (tables.begin_piece chunk.now word)) }
{
    if !chunk.any(PathTest::BeginsAt(2)) {
        return Ok(());
    }
    longs.push(u64::from(word))?;
    longs.push(chunk.word(PathTest::BeginsAt(2)))?;
    longs.push(chunk.word(PathTest::IsJust(2)))?;
    Ok(())
}

fn put_entry(
    chunk: &Chunk<'_>,
    word: u32,
    arc: &FlowArc,
    longs: &mut Vec<u64>,
) -> Result<(), AllocError>
    ensures { OnOk result
        (longs.new.items ≡ longs.old.items
        ++ tables.pass_longs (tables.pass_piece arc.now.from arc.now.to chunk.now word)) }
{
    if !chunk.any(PathTest::Touches(arc.from, arc.to)) {
        return Ok(());
    }
    longs.push(u64::from(word))?;
    longs.push(chunk.word(PathTest::HasMove(arc.from, arc.to)))?;
    longs.push(chunk.word(PathTest::EndsByMove(arc.from, arc.to)))?;
    longs.push(chunk.word(PathTest::BeginsAt(arc.to)))?;
    Ok(())
}

fn begin_longs(alloc: Global, paths: &Paths) -> Result<Vec<u64>, AllocError>
    ensures { IfOk result (λ v. v.items ≡ tables.begin_longs (spec.row_of_start 2 paths.now)) }
{
    let mut longs = Vec::new(alloc);
    for word in 0..width(paths) {
        put_begin_entry(&Chunk::of(paths, word), word, &mut longs)?;
    }
    Ok(longs)
}

fn pass_longs(alloc: Global, paths: &Paths, arc: &FlowArc) -> Result<Vec<u64>, AllocError>
    ensures { IfOk result (λ v. v.items
        ≡ tables.pass_longs (spec.row_of_move arc.now.from arc.now.to paths.now)) }
{
    let mut longs = Vec::new(alloc);
    for word in 0..width(paths) {
        put_entry(&Chunk::of(paths, word), word, arc, &mut longs)?;
    }
    Ok(longs)
}

fn has_row(arc: &FlowArc) -> bool
    ensures { result ≡ spec.has_row arc.now }
{
    let real = match arc.kind {
        ArcKind::Real => true,
        ArcKind::CallExit => false,
    };
    real && arc.from >= 2 && arc.to >= 2
}

fn put_begin(alloc: Global, paths: &Paths, table: &mut Vec<u64>) -> Result<(), AllocError>
    ensures { OnOk result
        (table.new.items ≡ table.old.items ++ begin_spelled (spec.row_of_start 2 paths.now)) }
{
    let longs = begin_longs(alloc, paths)?;
    table.push(longs.len() as u64 / 3)?;
    table.extend_from_slice(&longs)?;
    Ok(())
}

/// The row of an arc comes behind the others, if it has one.
fn put_arc(
    alloc: Global,
    paths: &Paths,
    arc: &FlowArc,
    table: &mut Vec<u64>,
    spans: &mut Vec<Option<RowSpan>>,
) -> Result<(), AllocError>
    ensures table { OnOk result
        (table.new.items ≡ table.old.items ++ tables.row_or (tables.row_of paths.now arc.now)) }
    ensures spans { OnOk result
        (spans.new.items ≡ spans.old.items
        ++ tables.span_of (length table.old.items) (tables.row_of paths.now arc.now) ∷ []) }
{
    if !has_row(arc) {
        spans.push(None)?;
        return Ok(());
    }
    let longs = pass_longs(alloc, paths, arc)?;
    let from = table.len();
    table.push(longs.len() as u64 / 4)?;
    table.extend_from_slice(&longs)?;
    let to = table.len();
    spans.push(Some(RowSpan { from, to }))?;
    Ok(())
}

/// The numbers of the rows that are there, counted from 0.
fn numbers_of(alloc: Global, spans: &[Option<RowSpan>]) -> Result<Vec<Option<u32>>, AllocError>
    requires { length spans.now < 2 ^ 32 }
    ensures { IfOk result (λ v. tables.AreNumbers spans.now v.items) }
{
    let mut numbers = Vec::new(alloc);
    let mut next = 0;
    for span in spans {
        match span {
            Some(_) => {
                numbers.push(Some(next))?;
                next += 1;
            }
            None => numbers.push(None)?,
        }
    }
    Ok(numbers)
}

fn part(table: &[u64], from: usize, to: usize) -> &[u64]
    requires order { from ≤ to }
    requires within { to ≤ length table.now }
    ensures { result.now ≡ slice_range table.now from to }
{
    &table[from..to]
}

impl Rows {
    /// How many words the bits have.
    pub fn width(&self) -> u32
        ensures { result ≡ self.now.width }
    {
        self.width
    }

    /// The row with which a walk begins, and then the rows of the arcs, in their order.
    pub fn table(&self) -> &[u64]
        ensures { result.now ≡ tables.table_seen self.now }
    {
        &self.table
    }

    /// The row with which a walk begins.
    pub fn begin_row(&self) -> &[u64]
        ensures { result.now ≡ self.now.begin }
    {
        &self.table[..self.begin]
    }

    /// The row of the arc, which has one.
    pub fn pass_row(&self, arc: u32) -> &[u64]
        requires there { arc < length self.now.passes }
        requires some { IsSome (slice_index_or self.now.passes arc None) }
        ensures { Some result.now ≡ slice_index_or self.now.passes arc None }
    {
        match self.spans[arc as usize] {
            Some(span) => part(&self.table, span.from, span.to),
            None => &[],
        }
    }

    /// How many arcs have a row.
    pub fn count(&self) -> u32
        ensures { result ≡ tables.rows_in self.now.passes }
    {
        self.spans.iter().filter(|span| span.is_some()).count() as u32
    }

    /// The number of the arc's row, counted from 0 in the order of arcs; none where it has no row.
    pub fn row_number(&self, arc: u32) -> Option<u32>
        ensures { result ≡ tables.number_at self.now.passes arc }
    {
        match self.numbers.get(arc as usize) {
            Some(number) => *number,
            None => None,
        }
    }
}
