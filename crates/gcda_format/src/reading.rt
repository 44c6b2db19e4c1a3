//! The reader of data.

ghost use Rattle.std.specs.Prelude.{◌≡◌};
ghost use Rattle.gcov_records.specs.Reading.{Gives, Tells, each};
ghost use Rattle.gcov_records.specs.Exact.{IsExact};
ghost use Rattle.gcda_format.specs.Data.{IsData};
ghost use Rattle.gcda_format.specs.Spelling.{data_bytes};
ghost use Rattle.gcda_format.specs.Reading as spec;

use crate::counts::{Data, FunctionData};
use crate::{BIT_TAG, COUNT_LIMIT, COUNTER_TAG, FUNCTION_TAG, MAGIC, RUNS_TAG, VERSION};
use cov_base::Refusal;
use gcov_items::Reader;
use gcov_records::{FileFault, take_end, take_fixed, take_header, take_longs, take_word};
use std::alloc::Global;

/// Reads the data of a file: exactly where the bytes are its written form. Otherwise the first
/// fault is told with its place: each item is tested once it stands whole. Memory is taken for what
/// stands in the bytes alone.
pub fn read_data(alloc: Global, bytes: &[u8]) -> Result<Data, Refusal<FileFault>>
    ensures told { Tells (spec.told bytes.now) result }
    ensures exact { IsExact IsData data_bytes bytes.now (spec.told bytes.now) }
{
    let mut reader = Reader::new(bytes);
    let counts = take_data(alloc, &mut reader)?;
    take_end(&reader)?;
    Ok(counts)
}

fn take_data(alloc: Global, reader: &mut Reader<'_>) -> Result<Data, Refusal<FileFault>>
    ensures { Gives (λ d. d) spec.data_file reader.old reader.new result }
{
    let fault = FileFault::Magic(reader.place());
    take_fixed(reader, MAGIC, fault)?;
    let fault = FileFault::Version(reader.place());
    take_fixed(reader, VERSION, fault)?;
    let stamp = take_word(reader)?;
    let count = take_word(reader)?;
    take_header(reader, RUNS_TAG, 4)?;
    let runs = take_word(reader)?;
    let functions = take_functions(alloc, reader, count)?;
    Ok(Data {
        stamp,
        runs,
        functions,
    })
}

fn take_functions(
    alloc: Global,
    reader: &mut Reader<'_>,
    count: u32,
) -> Result<Vec<FunctionData>, Refusal<FileFault>>
    ensures { Gives (λ v. v.items) (each 0 count spec.function_at) reader.old reader.new result }
{
    let mut functions = Vec::new(alloc);
    for number in 0..count {
        functions.push(take_function(alloc, reader, number)?)?;
    }
    Ok(functions)
}

fn take_function(
    alloc: Global,
    reader: &mut Reader<'_>,
    number: u32,
) -> Result<FunctionData, Refusal<FileFault>>
    ensures { Gives (λ f. f) (spec.function_at number) reader.old reader.new result }
{
    take_header(reader, FUNCTION_TAG, 8)?;
    let fault = FileFault::Order(reader.place());
    take_fixed(reader, number, fault)?;
    let checksum = take_word(reader)?;
    let counters = take_longs(alloc, reader, COUNTER_TAG, COUNT_LIMIT)?;
    let bits = take_longs(alloc, reader, BIT_TAG, u64::MAX)?;
    Ok(FunctionData {
        checksum,
        counters,
        bits,
    })
}
