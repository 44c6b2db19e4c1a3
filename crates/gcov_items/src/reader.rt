//! A reader of items.

ghost use Rattle.std.specs.Prelude.{◌≡◌, ◌++◌, ◌<◌, ◌∷◌, [], ℕ, List, length, drop};
ghost use Rattle.std.specs.Prelude.{IfSome, IfNone, IfOk, IfErr};
ghost use Rattle.gcov_items.specs.Items as spec;

use std::marker::Model;

/// The bytes end within an item.
#[derive(Clone, Copy, Debug, PartialEq, Eq)]
pub struct Short;

/// Why no string could be read.
#[derive(Clone, Copy, Debug, PartialEq, Eq)]
pub enum StringFault {
    /// The bytes end within it.
    Short,
    /// Its bytes don't end in a NUL, or have another one, or are a NUL alone.
    Text,
}

/// Bytes with a place in them.
#[derive(Debug, Drop)]
pub struct Reader<'a> {
    bytes: &'a [u8],
    at: usize,
}

impl<'a> Model for Reader<'a> {
    ghost use Rattle.std.specs.Prelude.{◌≤◌, length};
    ghost use Rattle.gcov_items.specs.Items.{ReaderValue};

    ghost Value = { ReaderValue };

    ghost view = { λ r. record { bytes = r.bytes.now; at = r.at } };

    ghost invariant = { λ r. r.at ≤ length r.bytes.now };
}

impl<'a> Reader<'a> {
    /// At the first of these bytes.
    pub fn new(bytes: &'a [u8]) -> Reader<'a>
        ensures { result ≡ record { bytes = bytes.now; at = 0 } }
    {
        Reader { bytes, at: 0 }
    }

    /// The place of the next item.
    pub fn place(&self) -> u64
        ensures { result ≡ self.now.at }
    {
        self.at as u64
    }

    /// The place behind the last byte.
    pub fn end(&self) -> u64
        ensures { result ≡ length self.now.bytes }
    {
        self.bytes.len() as u64
    }

    /// How many bytes are left.
    pub fn left(&self) -> u64
        ensures { result ≡ length (spec.left self.now) }
    {
        (self.bytes.len() - self.at) as u64
    }

    /// Nothing is left.
    pub fn at_end(&self) -> bool
        ensures { spec.EndsHere self.now result }
    {
        if self.at == self.bytes.len() {
            return true;
        }
        false
    }

    /// The next byte.
    pub fn byte(&mut self) -> Result<u8, Short>
        ensures { spec.Reads (λ b. b ∷ []) 1 self.old self.new result }
    {
        if self.at == self.bytes.len() {
            return Err(Short);
        }
        let byte = self.bytes[self.at];
        self.at += 1;
        Ok(byte)
    }

    /// The next word: four bytes, the low one first.
    pub fn word(&mut self) -> Result<u32, Short>
        ensures { spec.Reads spec.word_bytes 4 self.old self.new result }
    {
        let Some(n) = first_word(&self.bytes[self.at..]) else {
            return Err(Short);
        };
        self.at += 4;
        Ok(n)
    }

    /// The next long: two words, the low one first.
    pub fn long(&mut self) -> Result<u64, Short>
        ensures { spec.Reads spec.long_bytes 8 self.old self.new result }
    {
        let Some(n) = first_long(&self.bytes[self.at..]) else {
            return Err(Short);
        };
        self.at += 8;
        Ok(n)
    }

    /// The tag of the next record and the length of its contents.
    pub fn header(&mut self) -> Result<(u32, u32), Short>
        ensures { spec.Reads spec.header_bytes 8 self.old self.new result }
    {
        let left = &self.bytes[self.at..];
        let Some(tag) = first_word(left) else {
            return Err(Short);
        };
        let Some(length) = first_word(&left[4..]) else {
            return Err(Short);
        };
        self.at += 8;
        Ok((tag, length))
    }

    /// The text of the next string, without the NUL behind it.
    pub fn string(&mut self) -> Result<&'a [u8], StringFault>
        ensures ok { IfOk result (λ text. spec.TakesString text.now self.old self.new) }
        ensures err { IfErr result (λ e. spec.Refuses self.old self.new e) }
    {
        let left = &self.bytes[self.at..];
        let Some(n) = first_word(left) else {
            return Err(StringFault::Short);
        };
        if n == 0 {
            self.at += 4;
            return Ok(&left[4..4]);
        }
        let size = n as usize;
        let behind = &left[4..];
        if behind.len() < size {
            return Err(StringFault::Short);
        }
        let Some(text) = text_of(&behind[..size]) else {
            return Err(StringFault::Text);
        };
        self.at += 4 + size;
        Ok(text)
    }
}

/// The word at the front of bytes.
fn first_word(bytes: &[u8]) -> Option<u32>
    ensures none { IfNone result (length bytes.now < 4) }
    ensures some { IfSome result (λ n. bytes.now ≡ spec.word_bytes n ++ drop 4 bytes.now) }
{
    if bytes.len() < 4 {
        return None;
    }
    Some(u32::from_le_bytes([bytes[0], bytes[1], bytes[2], bytes[3]]))
}

/// The long at the front of bytes.
fn first_long(bytes: &[u8]) -> Option<u64>
    ensures none { IfNone result (length bytes.now < 8) }
    ensures some { IfSome result (λ n. bytes.now ≡ spec.long_bytes n ++ drop 8 bytes.now) }
{
    if bytes.len() < 8 {
        return None;
    }
    Some(u64::from_le_bytes([
        bytes[0], bytes[1], bytes[2], bytes[3], bytes[4], bytes[5], bytes[6], bytes[7],
    ]))
}

/// The text whose string has these bytes behind its word.
fn text_of(body: &[u8]) -> Option<&[u8]>
    ensures some { IfSome result (λ text. spec.IsBodyOf body.now text.now) }
    ensures none { IfNone result ((text : List ℕ) → spec.IsBodyOf body.now text → ⊥) }
{
    let (last, text) = body.split_last()?;
    if *last != 0 || text.is_empty() {
        return None;
    }
    if text.contains(&0) {
        return None;
    }
    Some(text)
}
