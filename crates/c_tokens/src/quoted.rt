//! Characters between quotes.

ghost use Rattle.std.specs.Prelude.{◌≡◌, ◌+◌, ◌<◌, ◌≤◌, length, IfOk, IfErr};
ghost use Rattle.c_tokens.specs.Reading as read;
ghost use Rattle.c_tokens.specs.Characters as spec;

use crate::bytes::{ByteClass, is_in};
use crate::literals::digit_value;

/// How far a character is read.
#[derive(Clone, Copy)]
pub enum Reading {
    /// Before its first quote.
    Quote,
    /// Behind its first quote.
    Inside,
    /// Behind the `\` of an escape.
    Escape,
    /// Behind the first octal digit, with the number so far.
    OctalDigit(u8),
    /// Behind the second octal digit.
    OctalDigits(u8),
    /// Behind the `x` of an escape.
    Hexadecimal,
    /// Behind the first hexadecimal digit, with the number so far.
    HexadecimalDigit(u8),
    /// Before its last quote, with its byte.
    Close(u8),
}

/// What a byte does to a character that is being read.
#[derive(Clone, Copy)]
pub enum Step {
    /// The byte does not fit.
    Misfit,
    /// The reading goes on.
    Goes(Reading),
    /// The character ends with this byte, and this is its meaning.
    Ends(u8),
}

/// Whether the byte may stand between the quotes for itself.
fn is_plain(byte: u8) -> bool
    ensures { result ≡ spec.is_plain byte }
{
    32 <= byte && byte <= 126 && byte != b'\'' && byte != b'\\'
}

/// The byte that a letter or mark behind `\` means.
fn escaped(byte: u8) -> Option<u8>
    ensures { result ≡ spec.escaped byte }
{
    match byte {
        b'n' => Some(10),
        b't' => Some(9),
        b'r' => Some(13),
        b'a' => Some(7),
        b'b' => Some(8),
        b'f' => Some(12),
        b'v' => Some(11),
        b'\\' => Some(b'\\'),
        b'\'' => Some(b'\''),
        b'"' => Some(b'"'),
        b'?' => Some(b'?'),
        _ => None,
    }
}

/// The last quote of a character.
fn close(value: u8, byte: u8) -> Step
    ensures { result ≡ read.close value byte }
{
    if byte == b'\'' {
        Step::Ends(value)
    } else {
        Step::Misfit
    }
}

/// The byte behind the first quote.
fn inside(byte: u8) -> Step
    ensures { result ≡ read.inside byte }
{
    if byte == b'\\' {
        return Step::Goes(Reading::Escape);
    }
    if is_plain(byte) {
        Step::Goes(Reading::Close(byte))
    } else {
        Step::Misfit
    }
}

/// The byte behind `\`.
fn escape(byte: u8) -> Step
    ensures { result ≡ read.escape byte }
{
    if is_in(ByteClass::Octal, byte) {
        return Step::Goes(Reading::OctalDigit(digit_value(byte)));
    }
    if byte == b'x' {
        return Step::Goes(Reading::Hexadecimal);
    }
    match escaped(byte) {
        Some(value) => Step::Goes(Reading::Close(value)),
        None => Step::Misfit,
    }
}

/// The byte behind an octal digit.
fn second_octal(value: u8, byte: u8) -> Step
    ensures { result ≡ read.second_octal value byte }
{
    if value < 8 && is_in(ByteClass::Octal, byte) {
        Step::Goes(Reading::OctalDigits(8 * value + digit_value(byte)))
    } else {
        close(value, byte)
    }
}

/// The byte behind two octal digits.
fn third_octal(value: u8, byte: u8) -> Step
    ensures { result ≡ read.third_octal value byte }
{
    if value < 32 && is_in(ByteClass::Octal, byte) {
        Step::Goes(Reading::Close(8 * value + digit_value(byte)))
    } else {
        close(value, byte)
    }
}

/// The byte behind `\x`.
fn first_hexadecimal(byte: u8) -> Step
    ensures { result ≡ read.first_hexadecimal byte }
{
    if is_in(ByteClass::Hexadecimal, byte) {
        Step::Goes(Reading::HexadecimalDigit(digit_value(byte)))
    } else {
        Step::Misfit
    }
}

/// The byte behind a hexadecimal digit.
fn second_hexadecimal(value: u8, byte: u8) -> Step
    ensures { result ≡ read.second_hexadecimal value byte }
{
    if value < 16 && is_in(ByteClass::Hexadecimal, byte) {
        Step::Goes(Reading::Close(16 * value + digit_value(byte)))
    } else {
        close(value, byte)
    }
}

/// What the next byte does to a character.
#[tactic(auto, unfolding(crate::specs::Reading::next_step))]
fn next_step(reading: Reading, byte: u8) -> Step
    ensures { result ≡ read.next_step reading byte }
{
    match reading {
        Reading::Quote if byte == b'\'' => Step::Goes(Reading::Inside),
        Reading::Quote => Step::Misfit,
        Reading::Inside => inside(byte),
        Reading::Escape => escape(byte),
        Reading::OctalDigit(value) => second_octal(value, byte),
        Reading::OctalDigits(value) => third_octal(value, byte),
        Reading::Hexadecimal => first_hexadecimal(byte),
        Reading::HexadecimalDigit(value) => second_hexadecimal(value, byte),
        Reading::Close(value) => close(value, byte),
    }
}

/// The byte and the length of the character at the front of the text. An `Err` is the place of the
/// first byte that does not fit.
pub fn character(text: &[u8]) -> Result<(u8, usize), usize>
    ensures value { result ≡ read.character_at Reading.Quote 0 text.now }
    ensures len { IfOk result (λ found. (0 < found.1) × (found.1 ≤ length text.now)) }
    ensures misfit { IfErr result (λ place. place ≤ length text.now) }
{
    let mut reading = Reading::Quote;
    for (place, byte) in text.iter().enumerate() {
        match next_step(reading, *byte) {
            Step::Goes(next) => reading = next,
            Step::Ends(value) => return Ok((value, place + 1)),
            Step::Misfit => return Err(place),
        }
    }
    Err(text.len())
}
