//! Writers of records.

ghost use Rattle.std.specs.Prelude.{◌≡◌, ◌*◌, ◌<◌, ◌^◌, ◌++◌, length, OnOk};
ghost use Rattle.gcov_records.specs.Records as spec;

use cov_base::NoMemory;
use gcov_items::{put_header, put_long};

/// Adds a record of longs with this tag.
#[tactic(auto, unfolding(crate::specs::Records::long_record))]
pub fn put_longs(out: &mut Vec<u8>, tag: u32, numbers: &[u64]) -> Result<(), NoMemory>
    requires { 8 * length numbers.now < 2 ^ 32 }
    ensures { OnOk result (out.new.items ≡ out.old.items ++ spec.long_record tag numbers.now) }
{
    put_header(out, tag, 8 * numbers.len() as u32)?;
    put_numbers(out, numbers)
}

fn put_numbers(out: &mut Vec<u8>, numbers: &[u64]) -> Result<(), NoMemory>
    ensures { OnOk result (out.new.items ≡ out.old.items ++ spec.longs_bytes numbers.now) }
{
    for number in numbers.iter() {
        put_long(out, *number)?;
    }
    Ok(())
}
