//! The item at the front of a text.

ghost use Rattle.std.specs.Prelude.{
  ◌≡◌,
  ℕ,
  ◌+◌,
  ◌<◌,
  ◌≤◌,
  ◌↔◌,
  ◌^◌,
  Bool,
  length,
  slice_index,
  take,
  IfOk,
  IfSome,
  IsTrue,
  MatchOption,
};
ghost use Rattle.std.specs.List.{take_while, list_all};
ghost use Rattle.c_tokens.specs.Bytes.{is_in};
ghost use Rattle.c_tokens.specs.Items as spec;
ghost use Rattle.c_tokens.specs.Items.{EndsComment, IsFirstEnd};
ghost use Rattle.c_tokens.specs.Characters.{signed_char as spec_char};
ghost use Rattle.c_tokens.specs.Finds.{Finds, Begins, HasLen};

use crate::bytes::{ByteClass, byte_at, is_in, run_len};
use crate::literals::{Literal, literal_of};
use crate::quoted::character;
use crate::token::{LeftWord, LexFault, TokenKind};
use crate::words::{longest_mark, word_of};
use int_ops::IntType;

/// What can begin at the front of a text, told by its first bytes.
#[derive(Clone, Copy)]
pub enum ItemFront {
    Blank,
    LineComment,
    BlockComment,
    Number,
    Word,
    Character,
    Hash,
    Quote,
    Mark,
}

/// An item of a text: its length, and the kind of token that it is, if it is one.
#[derive(Clone, Copy)]
pub struct Item {
    pub len: usize,
    pub kind: Option<TokenKind>,
}

/// What can begin at the front of the text.
fn front_of(text: &[u8]) -> ItemFront
    ensures front { result ≡ spec.front_of text.now }
    ensures first { Begins result text.now }
{
    let first = byte_at(text, 0);
    let next = byte_at(text, 1);
    if is_in(ByteClass::Blank, first) {
        return ItemFront::Blank;
    }
    if first == b'/' && next == b'/' {
        return ItemFront::LineComment;
    }
    if first == b'/' && next == b'*' {
        return ItemFront::BlockComment;
    }
    if is_in(ByteClass::Decimal, first) {
        return ItemFront::Number;
    }
    if is_in(ByteClass::Word, first) {
        return ItemFront::Word;
    }
    match first {
        b'\'' => ItemFront::Character,
        b'#' => ItemFront::Hash,
        b'"' => ItemFront::Quote,
        _ => ItemFront::Mark,
    }
}

/// Whether `*/` stands at the place.
fn ends_comment(text: &[u8], place: usize) -> bool
    requires { place < length text.now }
    ensures { IsTrue result ↔ EndsComment text.now place }
{
    text[place] == b'*' && byte_at(text, place + 1) == b'/'
}

/// The place of the first `*/` behind a `/*`.
fn comment_end(text: &[u8]) -> Option<usize>
    ensures first { MatchOption result ((k : ℕ) → 2 ≤ k → EndsComment text.now k → ⊥)
        (IsFirstEnd text.now) }
    ensures within { IfSome result (λ end. end + 2 ≤ length text.now) }
{
    for place in 2..text.len() {
        if ends_comment(text, place) {
            return Some(place);
        }
    }
    None
}

/// The comment from `/*` on.
fn block_comment(text: &[u8], place: u32) -> Result<Item, LexFault>
    ensures finds { (starts : Bool) → Finds ItemFront.BlockComment starts text.now place result }
    ensures len { IfOk result (HasLen text.now) }
{
    match comment_end(text) {
        Some(end) => Ok(Item {
            len: end + 2,
            kind: None,
        }),
        None => Err(LexFault::OpenComment(place)),
    }
}

/// The number at the front of the text.
fn number_item(text: &[u8], place: u32) -> Result<Item, LexFault>
    requires more { 0 < length text.now }
    requires first { Begins ItemFront.Number text.now }
    ensures finds { (starts : Bool) → Finds ItemFront.Number starts text.now place result }
    ensures len { IfOk result (HasLen text.now) }
{
    let len = run_len(ByteClass::Number, text);
    match literal_of(&text[..len]) {
        Literal::Number(number, number_type) => Ok(Item {
            len,
            kind: Some(TokenKind::Number(i128::from(number), number_type)),
        }),
        Literal::OutOfForm => Err(LexFault::BadNumber(place)),
        Literal::TooBig => Err(LexFault::BigLiteral(place)),
    }
}

/// The word at the front of the text.
fn word_item(text: &[u8], place: u32) -> Result<Item, LexFault>
    requires more { 0 < length text.now }
    requires first { Begins ItemFront.Word text.now }
    ensures finds { (starts : Bool) → Finds ItemFront.Word starts text.now place result }
    ensures len { IfOk result (HasLen text.now) }
{
    let len = run_len(ByteClass::Word, text);
    match word_of(&text[..len]) {
        Ok(kind) => Ok(Item {
            len,
            kind: Some(kind),
        }),
        Err(left) => Err(LexFault::LeftOut(left, place)),
    }
}

/// A byte as a signed char.
fn signed_char(value: u8) -> i128
    ensures { result ≡ spec_char value }
{
    let value = i128::from(value);
    if value < 128 { value } else { value - 256 }
}

/// The character at the front of the text.
fn character_item(text: &[u8], place: u32) -> Result<Item, LexFault>
    requires { place + length text.now < 2 ^ 32 }
    ensures finds { (starts : Bool) → Finds ItemFront.Character starts text.now place result }
    ensures len { IfOk result (HasLen text.now) }
{
    match character(text) {
        Ok((value, len)) => Ok(Item {
            len,
            kind: Some(TokenKind::Number(signed_char(value), IntType::Int)),
        }),
        Err(misfit) => Err(LexFault::BadByte(place + misfit as u32)),
    }
}

/// Whether each byte is a blank.
fn are_blanks(bytes: &[u8]) -> bool
    ensures { result ≡ list_all (is_in ByteClass.Blank) bytes.now }
{
    bytes.iter().all(|byte| is_in(ByteClass::Blank, *byte))
}

/// Whether the line is these bytes, blanks at its end aside.
fn is_line(bytes: &[u8], line: &[u8]) -> bool
    ensures { result ≡ spec.is_line bytes.now line.now }
{
    line.starts_with(bytes) && are_blanks(&line[bytes.len()..])
}

/// Whether the line names one of the two headers that may be included.
#[tactic(auto, unfolding(crate::specs::Items::is_include))]
fn is_include(line: &[u8]) -> bool
    ensures { result ≡ spec.is_include line.now }
{
    is_line(b"#include <stdio.h>", line) || is_line(b"#include <stdlib.h>", line)
}

/// The include line from `#` on.
fn include_line(text: &[u8], starts_line: bool, place: u32) -> Result<Item, LexFault>
    requires more { 0 < length text.now }
    requires first { Begins ItemFront.Hash text.now }
    ensures finds { Finds ItemFront.Hash starts_line text.now place result }
    ensures len { IfOk result (HasLen text.now) }
{
    let len = run_len(ByteClass::Line, text);
    if starts_line && is_include(&text[..len]) {
        Ok(Item { len, kind: None })
    } else {
        Err(LexFault::LeftOut(LeftWord::Hash, place))
    }
}

/// The mark at the front of the text.
fn mark_item(text: &[u8], place: u32) -> Result<Item, LexFault>
    ensures finds { (starts : Bool) → Finds ItemFront.Mark starts text.now place result }
    ensures len { IfOk result (HasLen text.now) }
{
    match longest_mark(text) {
        Some((len, mark)) => Ok(Item {
            len,
            kind: Some(TokenKind::Mark(mark)),
        }),
        None => Err(LexFault::BadByte(place)),
    }
}

/// The item at the front of a text that stands at a place, or the fault of the text.
pub fn item_at(text: &[u8], starts_line: bool, place: u32) -> Result<Item, LexFault>
    requires more { 0 < length text.now }
    requires room { place + length text.now < 2 ^ 32 }
    ensures finds { Finds (spec.front_of text.now) starts_line text.now place result }
    ensures len { IfOk result (HasLen text.now) }
{
    match front_of(text) {
        ItemFront::Blank => Ok(Item { len: 1, kind: None }),
        ItemFront::LineComment => Ok(Item {
            len: run_len(ByteClass::Line, text),
            kind: None,
        }),
        ItemFront::BlockComment => block_comment(text, place),
        ItemFront::Number => number_item(text, place),
        ItemFront::Word => word_item(text, place),
        ItemFront::Character => character_item(text, place),
        ItemFront::Hash => include_line(text, starts_line, place),
        ItemFront::Quote => Err(LexFault::LeftOut(LeftWord::Quote, place)),
        ItemFront::Mark => mark_item(text, place),
    }
}
