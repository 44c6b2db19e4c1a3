//! Readers of records: each gives what stands there, or the first fault with its place.

ghost use Rattle.std.specs.Prelude.{◌≡◌, ◌*◌};
ghost use Rattle.gcov_records.specs.Reading as spec;

use crate::fault::FileFault;
use cov_base::Refusal;
use gcov_items::Reader;
use std::alloc::Global;

/// The fault of bytes that end here.
fn short(reader: &Reader<'_>) -> FileFault
    ensures { result ≡ spec.short_at reader.now }
{
    FileFault::Short(reader.place().max(reader.end()))
}

/// The next word.
pub fn take_word(reader: &mut Reader<'_>) -> Result<u32, Refusal<FileFault>>
    ensures { spec.Gives (λ n. n) spec.word reader.old reader.new result }
{
    match reader.word() {
        Ok(n) => Ok(n),
        Err(_) => Err(Refusal::Refused(short(reader))),
    }
}

/// This word; another one has the fault, which is to stand at the reader's place.
pub fn take_fixed(
    reader: &mut Reader<'_>,
    wanted: u32,
    fault: FileFault,
) -> Result<(), Refusal<FileFault>>
    ensures { spec.Gives (λ x. wanted) (spec.fixed wanted (λ at. fault)) reader.old reader.new
        result }
{
    if take_word(reader)? != wanted {
        return Err(Refusal::Refused(fault));
    }
    Ok(())
}

/// The head of a record with this tag and this length of its contents.
pub fn take_header(reader: &mut Reader<'_>, tag: u32, length: u32) -> Result<(), Refusal<FileFault>>
    ensures { spec.Gives (λ x. length) (spec.header tag length) reader.old reader.new result }
{
    let fault = FileFault::Tag(reader.place());
    take_fixed(reader, tag, fault)?;
    let fault = FileFault::Length(reader.place());
    take_fixed(reader, length, fault)
}

/// A record of longs with this tag, each of them at most the limit. No more memory is taken than
/// for the longs that stand in the bytes.
pub fn take_longs(
    alloc: Global,
    reader: &mut Reader<'_>,
    tag: u32,
    limit: u64,
) -> Result<Vec<u64>, Refusal<FileFault>>
    ensures { spec.Gives (λ v. v.items) (spec.longs tag limit)
        reader.old reader.new result }
{
    let fault = FileFault::Tag(reader.place());
    take_fixed(reader, tag, fault)?;
    let count = take_count(reader)?;
    take_numbers(alloc, reader, count, limit)
}

/// How many longs a record has by its length.
fn take_count(reader: &mut Reader<'_>) -> Result<u32, Refusal<FileFault>>
    ensures { spec.Gives (λ n. 8 * n) spec.long_size reader.old reader.new result }
{
    let place = reader.place();
    let size = take_word(reader)?;
    if size % 8 != 0 {
        return Err(Refusal::Refused(FileFault::Length(place)));
    }
    Ok(size / 8)
}

fn take_numbers(
    alloc: Global,
    reader: &mut Reader<'_>,
    count: u32,
    limit: u64,
) -> Result<Vec<u64>, Refusal<FileFault>>
    ensures { spec.Gives (λ v. v.items) (spec.each 0 count (spec.limited limit))
        reader.old reader.new result }
{
    let mut numbers = Vec::new(alloc);
    for _ in 0..count {
        numbers.push(take_number(reader, limit)?)?;
    }
    Ok(numbers)
}

/// The next long, at most the limit.
fn take_number(reader: &mut Reader<'_>, limit: u64) -> Result<u64, Refusal<FileFault>>
    ensures { spec.Gives (λ n. n) (spec.limited limit 0) reader.old reader.new result }
{
    let place = reader.place();
    let Ok(number) = reader.long() else {
        return Err(Refusal::Refused(short(reader)));
    };
    if number > limit {
        return Err(Refusal::Refused(FileFault::Number(place)));
    }
    Ok(number)
}

/// Nothing is left.
pub fn take_end(reader: &Reader<'_>) -> Result<(), Refusal<FileFault>>
    ensures { spec.Ends reader.now result }
{
    if reader.left() != 0 {
        return Err(Refusal::Refused(FileFault::Extra(reader.place())));
    }
    Ok(())
}
