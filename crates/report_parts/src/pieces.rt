//! Pieces of a text: its lines, and texts at the right of a field.

ghost use Rattle.std.specs.Prelude.{◌≡◌, ◌<◌, ◌≤◌, ◌++◌, ◌∷◌, length, OnOk};
ghost use Rattle.std.specs.List.{position};
ghost use Rattle.report_parts.specs.Lines.{is_newline};
ghost use Rattle.report_parts.specs.Lines.{right, lines_in};

use std::alloc::{AllocError, Global};

/// Where the first line of a text ends: the place of its newline, if there is one.
fn line_end(text: &[u8]) -> Option<usize>
    ensures { result ≡ position is_newline text.now }
{
    text.iter().position(|b| *b == b'\n')
}

/// Splits the first line from a text: the line without its newline, and what follows it.
pub fn split_line(text: &[u8]) -> (&[u8], &[u8])
    requires { 0 < length text.now }
    ensures lines { lines_in text.now ≡ result.0.now ∷ lines_in result.1.now }
    ensures shorter { length result.1.now < length text.now }
{
    match line_end(text) {
        Some(end) => (&text[..end], &text[end + 1..]),
        None => (text, &[]),
    }
}

/// How many lines a text has: a last piece without newline is one if it isn't empty.
pub fn count_lines(text: &[u8]) -> usize
    ensures lines { result ≡ length (lines_in text.now) }
    ensures within { length (lines_in text.now) ≤ length text.now }
{
    let mut rest = text;
    let mut count = 0;
    while !rest.is_empty() {
        let (_line, after) = split_line(rest);
        rest = after;
        count += 1;
    }
    count
}

/// Appends a text at the right of so many places, or the whole text where it is longer.
pub fn push_right(out: &mut Vec<u8>, width: usize, text: &[u8]) -> Result<(), AllocError>
    ensures { OnOk result (out.new.items ≡ out.old.items ++ right width text.now) }
{
    for _place in 0..width.saturating_sub(text.len()) {
        out.push(b' ')?;
    }
    out.extend_from_slice(text)?;
    Ok(())
}
