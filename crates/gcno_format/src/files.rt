//! The reader of a file's records.

ghost use Rattle.gcov_records.specs.Reading.{Gives, Tells};
ghost use Rattle.gcno_format.specs.Reading as spec;

use crate::heads::take_head;
use crate::layout::{File, Layout};
use crate::records::{all_begun, begun, take_records};
use crate::{FUNCTION_TAG, MAGIC, PATH_LIMIT, VERSION};
use cov_base::Refusal;
use gcov_items::Reader;
use gcov_records::{FileFault, take_end, take_fixed, take_word};
use std::alloc::Global;

/// What the bytes are by their items.
pub fn laid_out(alloc: Global, bytes: &[u8]) -> Result<File, Refusal<FileFault>>
    ensures { Tells (spec.laid_out bytes.now) result }
{
    let mut reader = Reader::new(bytes);
    let file = take_file(alloc, &mut reader, bytes.len() as u64)?;
    take_end(&reader)?;
    Ok(file)
}

fn take_file(alloc: Global, reader: &mut Reader<'_>, most: u64) -> Result<File, Refusal<FileFault>>
    ensures { Gives (λ f. f) (spec.notes_file most) reader.old reader.new result }
{
    let fault = FileFault::Magic(reader.place());
    take_fixed(reader, MAGIC, fault)?;
    let fault = FileFault::Version(reader.place());
    take_fixed(reader, VERSION, fault)?;
    let stamp = take_word(reader)?;
    let limit = take_limit(reader)?;
    let count = take_word(reader)?;
    let functions = take_functions(alloc, reader, count, most)?;
    Ok(File {
        stamp,
        limit,
        functions,
    })
}

/// A limit of paths.
fn take_limit(reader: &mut Reader<'_>) -> Result<u32, Refusal<FileFault>>
    ensures { Gives (λ n. n) spec.limit_word reader.old reader.new result }
{
    let place = reader.place();
    let limit = take_word(reader)?;
    if limit > PATH_LIMIT {
        return Err(Refusal::Refused(FileFault::Number(place)));
    }
    Ok(limit)
}

fn take_functions(
    alloc: Global,
    reader: &mut Reader<'_>,
    count: u32,
    most: u64,
) -> Result<Vec<Layout>, Refusal<FileFault>>
    ensures { Gives (λ v. v.items) (spec.functions_of most count) reader.old reader.new result }
{
    if count == 0 {
        return Ok(Vec::new(alloc));
    }
    let now = take_first(alloc, reader)?;
    let first = begun(Vec::new(alloc), now, 1, count);
    let progress = take_records(alloc, reader, first, most)?;
    let functions = all_begun(progress)?;
    Ok(functions)
}

/// The function of number 0, with the tag of its record.
fn take_first(alloc: Global, reader: &mut Reader<'_>) -> Result<Layout, Refusal<FileFault>>
    ensures { Gives (λ l. l) spec.first_function reader.old reader.new result }
{
    let place = reader.place();
    take_fixed(reader, FUNCTION_TAG, FileFault::Tag(place))?;
    take_head(alloc, reader, 0, place)
}
