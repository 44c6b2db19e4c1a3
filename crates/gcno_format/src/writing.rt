//! The writer of notes.

ghost use Rattle.std.specs.Prelude.{◌≡◌, ◌+◌, ◌≤◌, ◌<◌, ◌^◌, ◌++◌, true};
ghost use Rattle.std.specs.Prelude.{length, flat_map, OnOk, IfOk};
ghost use Rattle.std.specs.List.{All};
ghost use Rattle.cov_base.specs.Net.{IsNet};
ghost use Rattle.gcov_items.specs.Items.{word_bytes};
ghost use Rattle.gcov_records.specs.Records.{spelled_from};
ghost use Rattle.gcno_format.specs.Notes.{FitsRecord, is_name, word_limit};
ghost use Rattle.gcno_format.specs.Spelling.{IsWritable, IsWritableFunction};
ghost use Rattle.gcno_format.specs.Spelling as spec;

use crate::arcs::{put_arcs, put_blocks};
use crate::marks::marks_of;
use crate::notes::{FunctionNotes, Notes};
use crate::{FUNCTION_TAG, LINE_TAG, MAGIC, VERSION};
use cov_base::{Net, NoMemory};
use gcov_items::{put_header, put_string, put_word};
use std::alloc::Global;

/// The file of the notes. The limit is to be at most 65,536, each checksum that of the net, each
/// name one of C, and the length of each record below 2^32.
pub fn write_notes(alloc: Global, notes: &Notes) -> Result<Vec<u8>, NoMemory>
    requires { IsWritable notes.now }
    ensures { IfOk result (λ bytes. bytes.items ≡ spec.notes_bytes notes.now) }
{
    let mut out = Vec::new(alloc);
    put_word(&mut out, MAGIC)?;
    put_word(&mut out, VERSION)?;
    put_word(&mut out, notes.stamp)?;
    put_word(&mut out, notes.limit)?;
    put_word(&mut out, notes.functions.len() as u32)?;
    put_functions(alloc, &mut out, &notes.functions)?;
    Ok(out)
}

fn put_functions(
    alloc: Global,
    out: &mut Vec<u8>,
    functions: &[FunctionNotes],
) -> Result<(), NoMemory>
    requires few { length functions.now ≤ word_limit }
    requires functions { All IsWritableFunction functions.now }
    ensures { OnOk result
        (out.new.items ≡ out.old.items ++ spelled_from 0 spec.function_bytes functions.now) }
{
    for (number, function) in functions.iter().enumerate() {
        put_function(alloc, out, number as u32, function)?;
    }
    Ok(())
}

fn put_function(
    alloc: Global,
    out: &mut Vec<u8>,
    number: u32,
    function: &FunctionNotes,
) -> Result<(), NoMemory>
    requires { IsWritableFunction function.now }
    ensures { OnOk result
        (out.new.items ≡ out.old.items ++ spec.function_bytes number function.now) }
{
    put_head(
        out,
        number,
        function.checksum,
        function.name.bytes(),
        function.line,
    )?;
    put_blocks(out, function.net.blocks())?;
    let arcs = marks_of(alloc, &function.net)?;
    put_arcs(out, &arcs)?;
    put_lists(out, &function.net)?;
    Ok(())
}

/// Adds a function's own record.
#[tactic(auto, unfolding(crate::specs::Spelling::head_bytes))]
fn put_head(
    out: &mut Vec<u8>,
    number: u32,
    checksum: u32,
    name: &[u8],
    line: u32,
) -> Result<(), NoMemory>
    requires name { is_name name.now ≡ true }
    requires short { 17 + length name.now ≤ word_limit }
    ensures { OnOk result
        (out.new.items ≡ out.old.items ++ spec.head_bytes number checksum name.now line) }
{
    put_header(out, FUNCTION_TAG, 17 + name.len() as u32)?;
    put_word(out, number)?;
    put_word(out, checksum)?;
    put_string(out, name)?;
    put_word(out, line)?;
    Ok(())
}

/// Adds a record for each block with lines.
fn put_lists(out: &mut Vec<u8>, net: &Net) -> Result<(), NoMemory>
    requires { All FitsRecord net.now.lines }
    ensures { OnOk result
        (out.new.items ≡ out.old.items ++ spelled_from 0 spec.lines_bytes net.now.lines) }
{
    for block in 0..net.blocks() {
        put_lines(out, block, net.lines(block))?;
    }
    Ok(())
}

/// Adds the record of a block with these lines, if there are any.
fn put_lines(out: &mut Vec<u8>, block: u32, lines: &[u32]) -> Result<(), NoMemory>
    requires { FitsRecord lines.now }
    ensures { OnOk result (out.new.items ≡ out.old.items ++ spec.lines_bytes block lines.now) }
{
    if lines.is_empty() {
        return Ok(());
    }
    put_record(out, block, lines)
}

#[tactic(auto, unfolding(crate::specs::Spelling::lines_record))]
fn put_record(out: &mut Vec<u8>, block: u32, lines: &[u32]) -> Result<(), NoMemory>
    requires { FitsRecord lines.now }
    ensures { OnOk result (out.new.items ≡ out.old.items ++ spec.lines_record block lines.now) }
{
    put_header(out, LINE_TAG, 4 + 4 * lines.len() as u32)?;
    put_word(out, block)?;
    put_words(out, lines)?;
    Ok(())
}

fn put_words(out: &mut Vec<u8>, words: &[u32]) -> Result<(), NoMemory>
    ensures { OnOk result (out.new.items ≡ out.old.items ++ flat_map word_bytes words.now) }
{
    for word in words {
        put_word(out, *word)?;
    }
    Ok(())
}
