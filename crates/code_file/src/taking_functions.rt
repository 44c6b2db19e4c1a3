//! Readers of functions.

ghost use Rattle.std.specs.Prelude.{
  ◌≡◌,
  ◌+◌,
  ◌*◌,
  ◌<◌,
  ◌≤◌,
  ◌&&◌,
  ◌||◌,
  ◌==◌,
  nat_le,
  nat_lt,
  length,
  slice_index_or,
  IfOk,
};
ghost use Rattle.cov_base.specs.Limits.{arc_limit};
ghost use Rattle.code_runs.specs.Limits as limit;
ghost use Rattle.code_runs.specs.Tables.{words_in};
ghost use Rattle.code_runs.specs.CodeChecks as spec_numbers;
ghost use Rattle.code_file.specs.Reading as item;
ghost use Rattle.code_file.specs.Taking as spec;

use crate::fault::CodeFault;
use crate::numbers::{Counts, Sizes};
use crate::taking::{take_at_most, take_between, take_word};
use crate::taking_ops::take_ops;
use crate::taking_tables::take_table;
use code_checks::limits::{CELL_LIMIT, DEPTH_LIMIT, INSTRUCTION_LIMIT, NUMBER_LIMIT, PATH_LIMIT};
use code_checks::words_in;
use cov_base::{ARC_LIMIT, PARAMETER_LIMIT, Refusal};
use gcov_items::Reader;
use stack_ops::FunctionCode;
use std::alloc::Global;
use std::marker::Model;

/// Where the instructions of a function and its table begin.
#[derive(Drop)]
pub struct Places {
    pub ops: Vec<u64>,
    pub table: u64,
}

impl Model for Places {
    ghost use Rattle.code_file.specs.Taking.{PlacesValue};

    ghost Value = { PlacesValue };

    ghost view = { λ p. record { ops = p.ops.items; table = p.table } };
}

impl Places {
    /// Where the instruction of this number begins.
    pub fn op_place(&self, k: usize) -> u64
        requires { k < length self.now.ops }
        ensures { result ≡ slice_index_or self.now.ops k 0 }
    {
        self.ops[k]
    }

    /// Where the number at this place of the table begins, which is before the end of the bytes.
    pub fn entry_place(&self, entry: u64, end: u64) -> u64
        requires { self.now.table + 8 * entry ≤ end }
        ensures { result ≡ self.now.table + 8 * entry }
    {
        self.table + 8 * entry
    }
}

/// The sizes of a function.
fn take_sizes(reader: &mut Reader<'_>) -> Result<Sizes, Refusal<CodeFault>>
    ensures { spec.Takes (λ s. s) spec.with_sizes reader.old reader.new result }
{
    let params = take_at_most(reader, PARAMETER_LIMIT as u32)?;
    let cells = take_between(reader, params, CELL_LIMIT)?;
    let depth = take_at_most(reader, DEPTH_LIMIT)?;
    let gives = take_at_most(reader, 1)?;
    Ok(Sizes {
        params,
        cells,
        depth,
        gives: gives == 1,
    })
}

/// A number is 0 in a code that doesn't count.
fn counted_only(covered: bool, n: u32) -> bool
    ensures { result ≡ item.counted_only covered n }
{
    covered || n == 0
}

fn take_checksum(reader: &mut Reader<'_>, covered: bool) -> Result<u32, Refusal<CodeFault>>
    ensures { spec.Takes (λ n. n) (item.with_field (item.counted_only covered))
        reader.old reader.new result }
{
    let place = reader.place();
    let n = take_word(reader)?;
    if !counted_only(covered, n) {
        return Err(Refusal::Refused(CodeFault::Field(place)));
    }
    Ok(n)
}

fn take_counters(reader: &mut Reader<'_>, covered: bool) -> Result<u32, Refusal<CodeFault>>
    ensures value { spec.Takes (λ n. n)
        (item.with_field (λ n. item.counted_only covered n && nat_le n arc_limit))
        reader.old reader.new result }
    ensures few { IfOk result (λ n. n ≤ arc_limit) }
{
    let place = reader.place();
    let n = take_word(reader)?;
    if !counted_only(covered, n) {
        return Err(Refusal::Refused(CodeFault::Field(place)));
    }
    if n as usize > ARC_LIMIT {
        return Err(Refusal::Refused(CodeFault::Field(place)));
    }
    Ok(n)
}

/// The paths of a function with so many counters, where those before it have so many numbers.
fn paths_there(covered: bool, numbers: u64, counters: u32, n: u32) -> bool
    requires { numbers ≤ limit.number_limit }
    ensures { result ≡ spec.paths_there covered numbers counters n }
{
    counted_only(covered, n)
        && n <= PATH_LIMIT
        && numbers + (u64::from(counters) + words_in(n)) <= NUMBER_LIMIT
}

fn take_paths(
    reader: &mut Reader<'_>,
    covered: bool,
    numbers: u64,
    counters: u32,
) -> Result<u32, Refusal<CodeFault>>
    requires { numbers ≤ limit.number_limit }
    ensures value { spec.Takes (λ n. n)
        (item.with_field (spec.paths_there covered numbers counters))
        reader.old reader.new result }
    ensures few { IfOk result (λ n. numbers + (counters + words_in n) ≤ limit.number_limit) }
{
    let place = reader.place();
    let n = take_word(reader)?;
    if !paths_there(covered, numbers, counters, n) {
        return Err(Refusal::Refused(CodeFault::Field(place)));
    }
    Ok(n)
}

/// So many rows may stand in the table of a function with so many paths.
fn passes_there(paths: u32, n: u32) -> bool
    ensures { result ≡ (nat_le n arc_limit && (nat_lt 0 paths || n == 0)) }
{
    n as usize <= ARC_LIMIT && (0 < paths || n == 0)
}

fn take_passes(reader: &mut Reader<'_>, paths: u32) -> Result<u32, Refusal<CodeFault>>
    ensures { spec.Takes (λ n. n)
        (item.with_field (λ n. nat_le n arc_limit && (nat_lt 0 paths || n == 0)))
        reader.old reader.new result }
{
    let place = reader.place();
    let n = take_word(reader)?;
    if !passes_there(paths, n) {
        return Err(Refusal::Refused(CodeFault::Field(place)));
    }
    Ok(n)
}

/// What a function counts, where those before it have so many counters and path words.
fn take_counts(
    reader: &mut Reader<'_>,
    covered: bool,
    numbers: u64,
) -> Result<Counts, Refusal<CodeFault>>
    requires { numbers ≤ limit.number_limit }
    ensures value { spec.Takes (λ c. c) (spec.with_counts covered numbers)
        reader.old reader.new result }
    ensures few { IfOk result
        (λ c. numbers + (c.counters + words_in c.paths) ≤ limit.number_limit) }
{
    let checksum = take_checksum(reader, covered)?;
    let counters = take_counters(reader, covered)?;
    let paths = take_paths(reader, covered, numbers, counters)?;
    let passes = take_passes(reader, paths)?;
    Ok(Counts {
        checksum,
        counters,
        paths,
        passes,
    })
}

/// How many instructions a function has, where those before it have so many.
fn take_size(reader: &mut Reader<'_>, start: u64) -> Result<u32, Refusal<CodeFault>>
    requires { start ≤ limit.instruction_limit }
    ensures value { spec.Takes (λ n. n) (spec.with_size start) reader.old reader.new result }
    ensures few { IfOk result (λ n. start + n ≤ limit.instruction_limit) }
{
    let place = reader.place();
    let n = take_word(reader)?;
    if n == 0 || start + u64::from(n) > INSTRUCTION_LIMIT {
        return Err(Refusal::Refused(CodeFault::Field(place)));
    }
    Ok(n)
}

/// The next function of a code that counts or not, where those before it have so many counters and
/// path words, and so many instructions.
fn take_function(
    alloc: Global,
    reader: &mut Reader<'_>,
    covered: bool,
    numbers: u64,
    start: u64,
) -> Result<(FunctionCode, Places), Refusal<CodeFault>>
    requires numbers { numbers ≤ limit.number_limit }
    requires start { start ≤ limit.instruction_limit }
    ensures value { spec.Takes (λ x. spec.placed x.0 x.1)
        (item.with_function covered numbers start) reader.old reader.new result }
    ensures numbers { IfOk result
        (λ x. numbers + spec_numbers.numbers_in x.0 ≤ limit.number_limit) }
    ensures start { IfOk result (λ x. start + length x.0.ops ≤ limit.instruction_limit) }
    ensures places { IfOk result (λ x. length x.1.ops ≡ length x.0.ops) }
{
    let sizes = take_sizes(reader)?;
    let counts = take_counts(reader, covered, numbers)?;
    let size = take_size(reader, start)?;
    let (ops, places) = take_ops(alloc, reader, size)?;
    let begins = reader.place();
    let table = take_table(alloc, reader, counts.paths, counts.passes)?;
    let function = FunctionCode {
        params: sizes.params,
        cells: sizes.cells,
        depth: sizes.depth,
        gives: sizes.gives,
        checksum: counts.checksum,
        counters: counts.counters,
        paths: counts.paths,
        passes: counts.passes,
        ops,
        table,
    };
    let places = Places {
        ops: places,
        table: begins,
    };
    Ok((function, places))
}

/// How many counters and path words the function has.
fn numbers_in(function: &FunctionCode) -> u64
    ensures { result ≡ spec_numbers.numbers_in function.now }
{
    u64::from(function.counters) + words_in(function.paths)
}

/// How many instructions the function has.
fn ops_in(function: &FunctionCode) -> u64
    ensures { result ≡ length function.now.ops }
{
    function.ops.len() as u64
}

/// So many functions of a code that counts or not, with their places.
pub fn take_functions(
    alloc: Global,
    reader: &mut Reader<'_>,
    count: u32,
    covered: bool,
) -> Result<(Vec<FunctionCode>, Vec<Places>), Refusal<CodeFault>>
    ensures value { spec.Takes (λ x. spec.all_placed x.0.items x.1.items)
        (spec.with_all_functions count covered) reader.old reader.new result }
    ensures places { IfOk result (λ x. spec.HavePlaces x.0.items x.1.items) }
{
    let mut functions = Vec::new(alloc);
    let mut places = Vec::new(alloc);
    let mut numbers = 0;
    let mut start = 0;
    for _ in 0..count {
        let (function, place) = take_function(alloc, reader, covered, numbers, start)?;
        numbers += numbers_in(&function);
        start += ops_in(&function);
        functions.push(function)?;
        places.push(place)?;
    }
    Ok((functions, places))
}
