//! Readers of a function's own record and of that of its blocks.

ghost use Rattle.std.specs.Prelude.{◌≡◌};
ghost use Rattle.std.specs.List.{list_all};
ghost use Rattle.gcov_records.specs.Reading.{Gives, each};
ghost use Rattle.gcno_format.specs.Notes.{is_name as is_name_spec};
ghost use Rattle.gcno_format.specs.Notes.{is_name_byte as is_name_byte_spec};
ghost use Rattle.gcno_format.specs.Reading as spec;

use crate::BLOCK_TAG;
use crate::layout::Layout;
use c_tree::Ident;
use cov_base::Refusal;
use gcov_items::Reader;
use gcov_records::{FileFault, take_fixed, take_header, take_word};
use std::alloc::Global;

/// The least length of a function's record: that of a name of one letter.
const LEAST_HEAD: u32 = 18;

/// The function of this number, whose record begins at this place; its tag was read.
pub fn take_head(
    alloc: Global,
    reader: &mut Reader<'_>,
    number: u32,
    place: u64,
) -> Result<Layout, Refusal<FileFault>>
    ensures { Gives (λ l. l) (spec.head_at number place) reader.old reader.new result }
{
    let size_place = reader.place();
    let size = take_size(reader)?;
    let fault = FileFault::Order(reader.place());
    take_fixed(reader, number, fault)?;
    let checksum = take_word(reader)?;
    let name = take_name(alloc, reader, size_place, size)?;
    let line = take_word(reader)?;
    take_header(reader, BLOCK_TAG, 4)?;
    let blocks = take_word(reader)?;
    Ok(Layout {
        place,
        name,
        line,
        checksum,
        blocks,
        arcs: Vec::new(alloc),
        lines: Vec::new(alloc),
    })
}

/// The length of a function's record.
fn take_size(reader: &mut Reader<'_>) -> Result<u32, Refusal<FileFault>>
    ensures { Gives (λ n. n) spec.head_size reader.old reader.new result }
{
    let place = reader.place();
    let size = take_word(reader)?;
    if size < LEAST_HEAD {
        return Err(Refusal::Refused(FileFault::Length(place)));
    }
    Ok(size)
}

/// The name in a record of this length, which stands at `size_place`.
fn take_name(
    alloc: Global,
    reader: &mut Reader<'_>,
    size_place: u64,
    size: u32,
) -> Result<Ident, Refusal<FileFault>>
    ensures { Gives (λ i. i) (spec.name_at size_place size) reader.old reader.new result }
{
    let place = reader.place();
    let count = take_word(reader)?;
    let bytes = take_bytes(alloc, reader, count)?;
    if u64::from(count) + 16 != u64::from(size) {
        return Err(Refusal::Refused(FileFault::Length(size_place)));
    }
    if !is_name_string(&bytes) {
        return Err(Refusal::Refused(FileFault::Text(place)));
    }
    let name = Ident::of(alloc, text_in(&bytes))?;
    Ok(name)
}

fn take_bytes(
    alloc: Global,
    reader: &mut Reader<'_>,
    count: u32,
) -> Result<Vec<u8>, Refusal<FileFault>>
    ensures { Gives (λ v. v.items) (each 0 count (λ i. spec.byte)) reader.old reader.new result }
{
    let mut bytes = Vec::new(alloc);
    for _ in 0..count {
        bytes.push(take_byte(reader)?)?;
    }
    Ok(bytes)
}

/// The next byte.
fn take_byte(reader: &mut Reader<'_>) -> Result<u8, Refusal<FileFault>>
    ensures { Gives (λ b. b) spec.byte reader.old reader.new result }
{
    match reader.byte() {
        Ok(byte) => Ok(byte),
        Err(_) => Err(Refusal::Refused(FileFault::Short(reader.place()))),
    }
}

/// Whether the bytes are a name of C with a NUL behind it.
fn is_name_string(bytes: &[u8]) -> bool
    ensures { result ≡ spec.is_name_string bytes.now }
{
    match bytes.split_last() {
        Some((last, text)) => *last == 0 && is_name(text),
        None => false,
    }
}

/// The bytes without their last.
fn text_in(bytes: &[u8]) -> &[u8]
    ensures { result.now ≡ spec.text_in bytes.now }
{
    &bytes[..bytes.len().saturating_sub(1)]
}

/// Whether the bytes are a name of C.
fn is_name(bytes: &[u8]) -> bool
    ensures { result ≡ is_name_spec bytes.now }
{
    let Some(first) = bytes.first() else {
        return false;
    };
    !first.is_ascii_digit() && are_name_bytes(bytes)
}

fn are_name_bytes(bytes: &[u8]) -> bool
    ensures { result ≡ list_all is_name_byte_spec bytes.now }
{
    bytes.iter().all(|byte| is_name_byte(*byte))
}

fn is_name_byte(byte: u8) -> bool
    ensures { result ≡ is_name_byte_spec byte }
{
    byte.is_ascii_alphanumeric() || byte == b'_'
}
