//! Cuts a text into its tokens.

ghost use Rattle.std.specs.Prelude.{
  ◌≡◌,
  ◌+◌,
  ◌<◌,
  ◌≤◌,
  ◌++◌,
  length,
  take,
  drop,
  count_by,
  ◌==◌,
  OnOk,
  IfOk,
  IfErr,
};
ghost use Rattle.c_tokens.specs.Tokens.{token_at, starts_line as is_line_start, line_after};
ghost use Rattle.c_tokens.specs.Scans.{HasTokens, ScanRefuses, Reaches, RefusesAt};

use crate::items::item_at;
use crate::token::{LexFault, Token, TokenKind};
use cov_base::{Refusal, SOURCE_LIMIT};
use std::alloc::{AllocError, Global};

/// How far a text is cut, and the line of that place.
#[derive(Clone, Copy)]
struct Place {
    at: usize,
    line: u32,
}

/// Whether a line begins at the place.
fn starts_line(text: &[u8], at: usize) -> bool
    requires { at ≤ length text.now }
    ensures { result ≡ is_line_start (take at text.now) }
{
    at == 0 || text[at - 1] == b'\n'
}

/// How many newlines there are among the bytes.
fn newlines(bytes: &[u8]) -> usize
    ensures value { result ≡ count_by (λ b. b == 10) bytes.now }
    ensures within { result ≤ length bytes.now }
{
    bytes.iter().filter(|byte| **byte == b'\n').count()
}

/// Adds the token that an item is, if it is one.
fn push_token(
    tokens: &mut Vec<Token>,
    kind: Option<TokenKind>,
    start: u32,
    end: u32,
    line: u32,
) -> Result<(), AllocError>
    ensures { OnOk result (tokens.new.items ≡ tokens.old.items ++ token_at kind start end line) }
{
    if let Some(kind) = kind {
        tokens.push(Token {
            kind,
            start,
            end,
            line,
        })?;
    }
    Ok(())
}

/// Takes the item at a place, and gives the place behind it.
fn take_item(text: &[u8], place: Place, tokens: &mut Vec<Token>) -> Result<Place, Refusal<LexFault>>
    requires inside { place.at < length text.now }
    requires size { length text.now ≤ SOURCE_LIMIT }
    requires line { place.line ≡ line_after (take place.at text.now) }
    ensures moves { IfOk result (λ next. (place.at < next.at) × (next.at ≤ length text.now)) }
    ensures line { IfOk result (λ next. next.line ≡ line_after (take next.at text.now)) }
    ensures takes { IfOk result (λ next. Reaches text.now place.at tokens.old.items
        → Reaches text.now next.at tokens.new.items) }
    ensures refused { IfErr result (RefusesAt text.now place.at) }
{
    let rest = &text[place.at..];
    let start = place.at as u32;
    let item = match item_at(rest, starts_line(text, place.at), start) {
        Ok(item) => item,
        Err(fault) => return Err(Refusal::Refused(fault)),
    };
    let end = place.at + item.len;
    push_token(tokens, item.kind, start, end as u32, place.line)?;
    let lines = newlines(&rest[..item.len]) as u32;
    Ok(Place {
        at: end,
        line: place.line + lines,
    })
}

/// The tokens of a text, or the fault that stands in it. `NoMemory` may come instead of either.
pub fn scan(alloc: Global, text: &[u8]) -> Result<Vec<Token>, Refusal<LexFault>>
    requires { length text.now ≤ SOURCE_LIMIT }
    ensures ok { IfOk result (λ list. HasTokens text.now list.items) }
    ensures err { IfErr result (ScanRefuses text.now) }
{
    let mut tokens = Vec::new(alloc);
    let mut place = Place { at: 0, line: 1 };
    while place.at < text.len() {
        match take_item(text, place, &mut tokens) {
            Ok(next) => place = next,
            Err(refusal) => return Err(refusal),
        }
    }
    Ok(tokens)
}
