//! Bytes from hexadecimal digits, and where two texts differ.

use crate::stops::{Stop, otherwise, told};
use std::alloc::Global;
use std::str;

/// How many bytes of a difference are shown.
const SHOWN: usize = 200;

/// Puts the bytes of hexadecimal numbers at the end.
pub(crate) fn push_hex(alloc: Global, bytes: &mut Vec<u8>, numbers: &str) -> Result<(), Stop> {
    for number in numbers.split_whitespace() {
        let Ok(byte) = u8::from_str_radix(number, 16) else {
            return Err(told(alloc, "no byte", number));
        };
        bytes.push(byte)?;
    }
    Ok(())
}

/// At what place two texts differ first.
fn difference(expected: &[u8], came: &[u8]) -> usize {
    let mut place = 0usize;
    for byte in expected {
        if came.get(place) != Some(byte) {
            return place;
        }
        place = place.saturating_add(1);
    }
    place
}

/// Some bytes from a place on, as text.
fn shown(bytes: &[u8], place: usize) -> &str {
    let Some(rest) = bytes.get(place..) else {
        return "";
    };
    let piece = rest.get(..SHOWN).unwrap_or(rest);
    str::from_utf8(piece).unwrap_or("bytes that are no text")
}

/// The stop where bytes differ.
pub(crate) fn differ(alloc: Global, what: &str, expected: &[u8], came: &[u8]) -> Stop {
    let place = difference(expected, came);
    match format!(in alloc; "{what} from byte {place} on") {
        Ok(what) => otherwise(
            alloc,
            what.as_str(),
            shown(expected, place),
            shown(came, place),
        ),
        Err(_) => Stop::NoMemory,
    }
}

/// Asserts that these bytes came.
pub(crate) fn expect_bytes(
    alloc: Global,
    what: &str,
    expected: &[u8],
    came: &[u8],
) -> Result<(), Stop> {
    if expected == came {
        return Ok(());
    }
    Err(differ(alloc, what, expected, came))
}

/// Asserts that bytes came that begin so.
pub(crate) fn expect_front(
    alloc: Global,
    what: &str,
    front: &[u8],
    came: &[u8],
) -> Result<(), Stop> {
    if came.starts_with(front) {
        return Ok(());
    }
    Err(differ(alloc, what, front, came))
}

/// Asserts that this text came.
pub(crate) fn expect_text(
    alloc: Global,
    what: &str,
    expected: &str,
    came: &str,
) -> Result<(), Stop> {
    if expected == came {
        return Ok(());
    }
    Err(otherwise(alloc, what, expected, came))
}
