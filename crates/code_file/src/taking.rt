//! Readers of bytes, words, longs, numbers and types: each gives what stands there, or the fault
//! that the bytes are.

ghost use Rattle.std.specs.Prelude.{
  ◌≡◌,
  ◌&&◌,
  ◌-◌,
  ◌^◌,
  nat_le,
  nat_lt,
  cond,
  pos,
  negsuc,
  Some,
  None,
};
ghost use Rattle.code_file.specs.Reading as item;
ghost use Rattle.code_file.specs.Taking as spec;

use crate::fault::CodeFault;
use cov_base::Refusal;
use gcov_items::Reader;
use int_ops::IntType;

const HALF: u64 = 0x8000_0000_0000_0000;

/// The fault of bytes that end here.
fn short(reader: &Reader<'_>) -> CodeFault
    ensures { result ≡ spec.short_at reader.now }
{
    CodeFault::Short(reader.place().max(reader.end()))
}

/// The next byte.
pub fn take_byte(reader: &mut Reader<'_>) -> Result<u8, Refusal<CodeFault>>
    ensures { spec.Takes (λ n. n) item.with_byte reader.old reader.new result }
{
    match reader.byte() {
        Ok(n) => Ok(n),
        Err(_) => Err(Refusal::Refused(short(reader))),
    }
}

/// The next word.
pub fn take_word(reader: &mut Reader<'_>) -> Result<u32, Refusal<CodeFault>>
    ensures { spec.Takes (λ n. n) item.with_word reader.old reader.new result }
{
    match reader.word() {
        Ok(n) => Ok(n),
        Err(_) => Err(Refusal::Refused(short(reader))),
    }
}

/// The next long.
pub fn take_long(reader: &mut Reader<'_>) -> Result<u64, Refusal<CodeFault>>
    ensures { spec.Takes (λ n. n) item.with_long reader.old reader.new result }
{
    match reader.long() {
        Ok(n) => Ok(n),
        Err(_) => Err(Refusal::Refused(short(reader))),
    }
}

/// This word; another one has the fault.
pub fn take_fixed(
    reader: &mut Reader<'_>,
    wanted: u32,
    fault: CodeFault,
) -> Result<(), Refusal<CodeFault>>
    ensures { spec.Takes (λ x. wanted) (spec.with_fixed wanted fault) reader.old reader.new result }
{
    if take_word(reader)? != wanted {
        return Err(Refusal::Refused(fault));
    }
    Ok(())
}

/// A word from the least on that is at most the limit.
pub fn take_between(
    reader: &mut Reader<'_>,
    least: u32,
    limit: u32,
) -> Result<u32, Refusal<CodeFault>>
    ensures { spec.Takes (λ n. n) (item.with_field (λ n. nat_le least n && nat_le n limit))
        reader.old reader.new result }
{
    let place = reader.place();
    let n = take_word(reader)?;
    if n < least || n > limit {
        return Err(Refusal::Refused(CodeFault::Field(place)));
    }
    Ok(n)
}

/// A word that is at most the limit.
pub fn take_at_most(reader: &mut Reader<'_>, limit: u32) -> Result<u32, Refusal<CodeFault>>
    ensures { spec.Takes (λ n. n) (item.with_field (λ n. nat_le n limit))
        reader.old reader.new result }
{
    let place = reader.place();
    let n = take_word(reader)?;
    if n > limit {
        return Err(Refusal::Refused(CodeFault::Field(place)));
    }
    Ok(n)
}

/// The number of a long in two's complement.
fn signed(n: u64) -> i128
    ensures { result ≡ cond (nat_lt n (2 ^ 63)) (pos n) (negsuc (2 ^ 64 - 1 - n)) }
{
    if n < HALF {
        return i128::from(n);
    }
    -1 - i128::from(u64::MAX - n)
}

/// The number of a long that is great, as numbers below 2^63 are spelled the other way.
fn great(n: u64) -> Option<i128>
    ensures { result ≡ cond (nat_le (2 ^ 63) n) (Some (pos n)) None }
{
    if n < HALF {
        return None;
    }
    Some(i128::from(n))
}

/// The number that a mark and a long spell, where they spell one.
fn number_of(mark: u8, n: u64) -> Option<i128>
    ensures { result ≡ item.number_of mark n }
{
    match mark {
        0 => Some(signed(n)),
        1 => great(n),
        _ => None,
    }
}

/// A number, whose nine bytes stand whole before it is tested; what is none has the fault.
pub fn take_number(reader: &mut Reader<'_>, fault: CodeFault) -> Result<i128, Refusal<CodeFault>>
    ensures { spec.Takes (λ n. n) (item.with_number fault) reader.old reader.new result }
{
    let Ok(mark) = reader.byte() else {
        return Err(Refusal::Refused(short(reader)));
    };
    let Ok(n) = reader.long() else {
        return Err(Refusal::Refused(short(reader)));
    };
    match number_of(mark, n) {
        Some(number) => Ok(number),
        None => Err(Refusal::Refused(fault)),
    }
}

/// The byte of a type; one that is none has the fault.
pub fn take_type(reader: &mut Reader<'_>, fault: CodeFault) -> Result<IntType, Refusal<CodeFault>>
    ensures { spec.Takes (λ t. t) (item.with_type fault) reader.old reader.new result }
{
    let code = take_byte(reader)?;
    match IntType::from_code(code) {
        Some(t) => Ok(t),
        None => Err(Refusal::Refused(fault)),
    }
}
