//! Numbers: their form, their value and their type.

ghost use Rattle.std.specs.Prelude.{◌≡◌, ◌+◌, ◌*◌, ◌^◌, ◌<◌, ◌≤◌, length, drop, find, pos};
ghost use Rattle.std.specs.Option.{SomeIff};
ghost use Rattle.int_ops.specs.Ranges.{is_in_range};
ghost use Rattle.c_tokens.specs.Literals as spec;
ghost use Rattle.c_tokens.specs.Words.{look_up};

use crate::bytes::{ByteClass, byte_at, run_len};
use crate::words::look_up;
use int_ops::{IntType, is_in_range};

/// How the digits of a number are read.
#[derive(Clone, Copy)]
pub enum NumberBase {
    Octal,
    Decimal,
    Hexadecimal,
}

/// What stands behind the digits of a number.
#[derive(Clone, Copy)]
pub enum Suffix {
    Plain,
    Unsigned,
    Long,
    UnsignedLong,
}

/// What a run that begins as a number is.
#[derive(Clone, Copy)]
pub enum Literal {
    /// A number, with the first type that holds it.
    Number(u64, IntType),
    /// No number.
    OutOfForm,
    /// A number that no type of its list holds.
    TooBig,
}

const SUFFIXES: [(&[u8], Suffix); 13] = [
    (b"", Suffix::Plain),
    (b"u", Suffix::Unsigned),
    (b"U", Suffix::Unsigned),
    (b"l", Suffix::Long),
    (b"L", Suffix::Long),
    (b"ul", Suffix::UnsignedLong),
    (b"uL", Suffix::UnsignedLong),
    (b"Ul", Suffix::UnsignedLong),
    (b"UL", Suffix::UnsignedLong),
    (b"lu", Suffix::UnsignedLong),
    (b"lU", Suffix::UnsignedLong),
    (b"Lu", Suffix::UnsignedLong),
    (b"LU", Suffix::UnsignedLong),
];

/// How a number's digits are read, by its first two bytes.
fn base_of(run: &[u8]) -> NumberBase
    ensures value { result ≡ spec.base_of run.now }
    ensures within { spec.digits_start result ≤ length run.now }
{
    if byte_at(run, 0) != b'0' {
        return NumberBase::Decimal;
    }
    match byte_at(run, 1) {
        b'x' => NumberBase::Hexadecimal,
        b'X' => NumberBase::Hexadecimal,
        _ => NumberBase::Octal,
    }
}

/// How many bytes stand before the digits.
fn digits_start(base: NumberBase) -> usize
    ensures { result ≡ spec.digits_start base }
{
    match base {
        NumberBase::Hexadecimal => 2,
        _ => 0,
    }
}

/// The digits of a base.
fn digit_class(base: NumberBase) -> ByteClass
    ensures { result ≡ spec.digit_class base }
{
    match base {
        NumberBase::Octal => ByteClass::Octal,
        NumberBase::Decimal => ByteClass::Decimal,
        NumberBase::Hexadecimal => ByteClass::Hexadecimal,
    }
}

/// How many digits a base has.
fn radix(base: NumberBase) -> u64
    ensures { result ≡ spec.radix base }
{
    match base {
        NumberBase::Octal => 8,
        NumberBase::Decimal => 10,
        NumberBase::Hexadecimal => 16,
    }
}

/// The number that a digit, a letter among them, stands for.
pub fn digit_value(digit: u8) -> u8
    ensures { result ≡ spec.digit_value digit }
{
    if digit.is_ascii_digit() {
        digit - b'0'
    } else if digit < b'a' {
        digit.saturating_sub(55)
    } else {
        digit - 87
    }
}

/// A number with one more digit, unless it passes 64 bits.
fn with_digit(number: u64, radix: u64, digit: u8) -> Option<u64>
    ensures { SomeIff result (number * radix + spec.digit_value digit < 2 ^ 64)
        (number * radix + spec.digit_value digit) }
{
    number
        .checked_mul(radix)?
        .checked_add(u64::from(digit_value(digit)))
}

/// The number that the digits spell, unless it passes 64 bits.
fn number_of(radix: u64, digits: &[u8]) -> Option<u64>
    requires { 0 < radix }
    ensures { SomeIff result (spec.number_from radix 0 digits.now < 2 ^ 64)
        (spec.number_from radix 0 digits.now) }
{
    let mut number = 0;
    for digit in digits {
        number = with_digit(number, radix, *digit)?;
    }
    Some(number)
}

/// The suffix that these bytes are.
fn suffix_of(rest: &[u8]) -> Option<Suffix>
    ensures { result ≡ look_up spec.suffixes rest.now }
{
    look_up(&SUFFIXES, rest)
}

/// The types that a number may have, in the order in which they are tried.
fn types_of(base: NumberBase, suffix: Suffix) -> &'static [IntType]
    ensures { result.now ≡ spec.types_of base suffix }
{
    match (base, suffix) {
        (NumberBase::Decimal, Suffix::Plain) => &[IntType::Int, IntType::Long],
        (_, Suffix::Plain) => &[
            IntType::Int,
            IntType::UnsignedInt,
            IntType::Long,
            IntType::UnsignedLong,
        ],
        (_, Suffix::Unsigned) => &[IntType::UnsignedInt, IntType::UnsignedLong],
        (NumberBase::Decimal, Suffix::Long) => &[IntType::Long],
        (_, Suffix::Long) => &[IntType::Long, IntType::UnsignedLong],
        (_, Suffix::UnsignedLong) => &[IntType::UnsignedLong],
    }
}

/// A number with the first of the types that holds it.
fn typed(number: u64, types: &[IntType]) -> Literal
    ensures { result ≡ spec.typed (find (λ t. is_in_range t (pos number)) types.now) number }
{
    for number_type in types {
        if is_in_range(*number_type, i128::from(number)) {
            return Literal::Number(number, *number_type);
        }
    }
    Literal::TooBig
}

/// What digits and a suffix spell in a base.
fn literal_in(base: NumberBase, body: &[u8]) -> Literal
    ensures { result ≡ spec.literal_in base body.now }
{
    let count = run_len(digit_class(base), body);
    if count == 0 {
        return Literal::OutOfForm;
    }
    let (digits, rest) = body.split_at(count);
    let Some(suffix) = suffix_of(rest) else {
        return Literal::OutOfForm;
    };
    match number_of(radix(base), digits) {
        Some(number) => typed(number, types_of(base, suffix)),
        None => Literal::TooBig,
    }
}

/// What a run that begins with a digit is.
pub fn literal_of(run: &[u8]) -> Literal
    ensures { result ≡ spec.literal_of run.now }
{
    let base = base_of(run);
    literal_in(base, &run[digits_start(base)..])
}
