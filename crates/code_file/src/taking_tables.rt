//! Readers of the tables of functions.

ghost use Rattle.std.specs.Prelude.{◌≡◌, ◌<◌, ◌≤◌, ◌^◌};
ghost use Rattle.code_file.specs.Reading as item;
ghost use Rattle.code_file.specs.Taking as spec;

use crate::fault::CodeFault;
use crate::taking::take_long;
use code_checks::words_in;
use cov_base::Refusal;
use gcov_items::Reader;
use std::alloc::Global;

/// Adds so many longs to a table.
fn take_longs(
    reader: &mut Reader<'_>,
    count: u64,
    table: &mut Vec<u64>,
) -> Result<(), Refusal<CodeFault>>
    ensures { spec.Takes (λ x. table.new.items) (item.with_longs count table.old.items)
        reader.old reader.new result }
{
    for _ in 0..count {
        table.push(take_long(reader)?)?;
    }
    Ok(())
}

/// Adds a row with at most so many entries, of `size` longs each.
fn take_row(
    reader: &mut Reader<'_>,
    size: u64,
    words: u64,
    table: &mut Vec<u64>,
) -> Result<(), Refusal<CodeFault>>
    requires size { size ≤ 4 }
    requires words { words < 2 ^ 32 }
    ensures { spec.Takes (λ x. table.new.items) (item.with_row size words table.old.items)
        reader.old reader.new result }
{
    let place = reader.place();
    let entries = take_long(reader)?;
    if entries > words {
        return Err(Refusal::Refused(CodeFault::Field(place)));
    }
    table.push(entries)?;
    take_longs(reader, size * entries, table)
}

/// Adds so many rows, whose entries have four longs.
fn take_rows(
    reader: &mut Reader<'_>,
    count: u32,
    words: u64,
    table: &mut Vec<u64>,
) -> Result<(), Refusal<CodeFault>>
    requires { words < 2 ^ 32 }
    ensures { spec.Takes (λ x. table.new.items) (item.with_rows count words table.old.items)
        reader.old reader.new result }
{
    for _ in 0..count {
        take_row(reader, 4, words, table)?;
    }
    Ok(())
}

/// The table of a function with so many paths and rows.
pub fn take_table(
    alloc: Global,
    reader: &mut Reader<'_>,
    paths: u32,
    passes: u32,
) -> Result<Vec<u64>, Refusal<CodeFault>>
    ensures { spec.Takes (λ v. v.items) (item.with_table paths passes)
        reader.old reader.new result }
{
    let mut table = Vec::new(alloc);
    if paths == 0 {
        return Ok(table);
    }
    let words = words_in(paths);
    take_row(reader, 3, words, &mut table)?;
    take_rows(reader, passes, words, &mut table)?;
    Ok(table)
}
