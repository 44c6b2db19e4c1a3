//! Writers of items.

ghost use Rattle.std.specs.Prelude.{◌≡◌, ◌+◌, ◌++◌, ◌<◌, ◌∷◌, [], length};
ghost use Rattle.gcov_items.specs.Items as spec;

use cov_base::NoMemory;

/// Adds a word: four bytes, the low one first. A refusal leaves `out` as it was.
pub fn put_word(out: &mut Vec<u8>, n: u32) -> Result<(), NoMemory>
    ensures { spec.Puts (spec.word_bytes n) out.old.items out.new.items result }
{
    out.extend_from_slice(&n.to_le_bytes())?;
    Ok(())
}

/// Adds a long: two words, the low one first. A refusal leaves `out` as it was.
pub fn put_long(out: &mut Vec<u8>, n: u64) -> Result<(), NoMemory>
    ensures { spec.Puts (spec.long_bytes n) out.old.items out.new.items result }
{
    out.extend_from_slice(&n.to_le_bytes())?;
    Ok(())
}

/// Adds the tag of a record and the length of its contents. A refusal leaves `out` as it was.
pub fn put_header(out: &mut Vec<u8>, tag: u32, length: u32) -> Result<(), NoMemory>
    ensures { spec.Puts (spec.header_bytes (tag, length)) out.old.items out.new.items result }
{
    let start = out.len();
    put_word(out, tag)?;
    if put_word(out, length).is_err() {
        out.truncate(start);
        return Err(NoMemory);
    }
    Ok(())
}

/// Adds a string: the number of its bytes with a NUL behind them, and these; for no bytes the word
/// 0. A refusal leaves `out` as it was.
pub fn put_string(out: &mut Vec<u8>, bytes: &[u8]) -> Result<(), NoMemory>
    requires short { length bytes.now < 4294967295 }
    requires text { spec.HasNoNul bytes.now }
    ensures { spec.Puts (spec.string_bytes bytes.now) out.old.items out.new.items result }
{
    if bytes.is_empty() {
        return put_word(out, 0);
    }
    let start = out.len();
    if put_text(out, bytes).is_err() {
        out.truncate(start);
        return Err(NoMemory);
    }
    Ok(())
}

/// Adds the string of some bytes; a refusal may leave a front of it.
fn put_text(out: &mut Vec<u8>, bytes: &[u8]) -> Result<(), NoMemory>
    requires short { length bytes.now < 4294967295 }
    ensures { spec.PutsSome (spec.word_bytes (length bytes.now + 1) ++ (bytes.now ++ 0 ∷ []))
        out.old.items out.new.items result }
{
    put_word(out, bytes.len() as u32 + 1)?;
    out.extend_from_slice(bytes)?;
    out.push(0)?;
    Ok(())
}
