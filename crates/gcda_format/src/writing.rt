//! The writer of data.

ghost use Rattle.std.specs.Prelude.{◌≡◌, ◌≤◌, ◌<◌, ◌++◌, length, OnOk, IfOk};
ghost use Rattle.std.specs.List.{All};
ghost use Rattle.gcov_records.specs.Records.{spelled_from};
ghost use Rattle.gcda_format.specs.Data.{FitsRecords, word_limit};
ghost use Rattle.gcda_format.specs.Spelling as spec;

use crate::counts::{Data, FunctionData};
use crate::{BIT_TAG, COUNTER_TAG, FUNCTION_TAG, MAGIC, RUNS_TAG, VERSION};
use cov_base::NoMemory;
use gcov_items::{put_header, put_word};
use gcov_records::put_longs;
use std::alloc::Global;

/// The file of the data. The length of each record is to be below 2^32.
pub fn write_data(alloc: Global, counts: &Data) -> Result<Vec<u8>, NoMemory>
    requires few { length counts.now.functions ≤ word_limit }
    requires records { All FitsRecords counts.now.functions }
    ensures { IfOk result (λ bytes. bytes.items ≡ spec.data_bytes counts.now) }
{
    let mut out = Vec::new(alloc);
    put_word(&mut out, MAGIC)?;
    put_word(&mut out, VERSION)?;
    put_word(&mut out, counts.stamp)?;
    put_word(&mut out, counts.functions.len() as u32)?;
    put_header(&mut out, RUNS_TAG, 4)?;
    put_word(&mut out, counts.runs)?;
    put_functions(&mut out, &counts.functions)?;
    Ok(out)
}

fn put_functions(out: &mut Vec<u8>, functions: &[FunctionData]) -> Result<(), NoMemory>
    requires few { length functions.now ≤ word_limit }
    requires records { All FitsRecords functions.now }
    ensures { OnOk result
        (out.new.items ≡ out.old.items ++ spelled_from 0 spec.function_bytes functions.now) }
{
    for (number, function) in functions.iter().enumerate() {
        put_function(out, number as u32, function)?;
    }
    Ok(())
}

fn put_function(out: &mut Vec<u8>, number: u32, function: &FunctionData) -> Result<(), NoMemory>
    requires { FitsRecords function.now }
    ensures { OnOk result
        (out.new.items ≡ out.old.items ++ spec.function_bytes number function.now) }
{
    put_header(out, FUNCTION_TAG, 8)?;
    put_word(out, number)?;
    put_word(out, function.checksum)?;
    put_longs(out, COUNTER_TAG, &function.counters)?;
    put_longs(out, BIT_TAG, &function.bits)?;
    Ok(())
}
