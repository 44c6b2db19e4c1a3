//! Classes of bytes, and the longest run of one class.

ghost use Rattle.std.specs.Prelude.{◌≡◌, ◌≢◌, ◌<◌, ◌≤◌, length, slice_index, true};
ghost use Rattle.std.specs.List.{prefix_len};
ghost use Rattle.c_tokens.specs.Bytes as spec;

/// A class of bytes.
#[derive(Clone, Copy)]
pub enum ByteClass {
    /// Blanks, newlines among them.
    Blank,
    /// All bytes but the newline.
    Line,
    /// Letters, digits and `_`.
    Word,
    /// Letters, digits, `_` and `.`
    Number,
    /// Octal digits.
    Octal,
    /// Decimal digits.
    Decimal,
    /// Hexadecimal digits.
    Hexadecimal,
}

/// Whether the byte is of the class.
pub fn is_in(class: ByteClass, byte: u8) -> bool
    ensures { result ≡ spec.is_in class byte }
{
    match class {
        ByteClass::Blank => byte == b' ' || (9 <= byte && byte <= 13),
        ByteClass::Line => byte != b'\n',
        ByteClass::Word => byte.is_ascii_alphanumeric() || byte == b'_',
        ByteClass::Number => byte.is_ascii_alphanumeric() || byte == b'_' || byte == b'.',
        ByteClass::Octal => b'0' <= byte && byte <= b'7',
        ByteClass::Decimal => byte.is_ascii_digit(),
        ByteClass::Hexadecimal => byte.is_ascii_hexdigit(),
    }
}

/// How many bytes at the front are of the class.
pub fn run_len(class: ByteClass, text: &[u8]) -> usize
    ensures value { result ≡ prefix_len (spec.is_in class) text.now }
    ensures within { result ≤ length text.now }
    ensures moves { 0 < length text.now → spec.is_in class (slice_index text.now 0) ≡ true
        → 0 < result }
{
    let mut end = 0;
    while end < text.len() && is_in(class, text[end]) {
        end += 1;
    }
    end
}

/// The byte at a place, or 0 past the end.
pub fn byte_at(text: &[u8], place: usize) -> u8
    ensures value { result ≡ slice_index text.now place }
    ensures within { result ≢ 0 → place < length text.now }
{
    if place < text.len() { text[place] } else { 0 }
}
