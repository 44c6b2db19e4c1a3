//! One store of the path bits of all calls.

ghost use Rattle.std.specs.Prelude.{◌≡◌, ◌+◌, ◌<◌, ◌≤◌, length, All, IfOk};
ghost use Rattle.word_rules.specs.WordRules.{words_of, begin_row, pass_row, begin_by, pass_by};
ghost use Rattle.stack_machine.specs.Bits.{no_bits_in, begun_with, back_to};

use cov_base::NoMemory;
use std::alloc::Global;
use std::marker::Model;
use word_rules::{begin, pass};

/// The path bits of all calls, in a room that was taken before. The words of the innermost call
/// come last, from `base` on.
#[derive(Drop)]
pub(crate) struct PathBits {
    words: Vec<u64>,
    base: usize,
    room: usize,
}

impl Model for PathBits {
    ghost use Rattle.std.specs.Prelude.{◌≤◌, take, drop, vec_len, vec_capacity};
    ghost use Rattle.stack_machine.specs.Bits.{BitsValue};

    ghost Value = { BitsValue };

    ghost view = { λ s. record {
      below = take s.base s.words.items;
      bits = drop s.base s.words.items;
      room = s.room;
    } };

    ghost invariant = { λ s. (s.base ≤ vec_len s.words) × (vec_len s.words ≤ s.room)
        × (s.room ≤ vec_capacity s.words) };
}

impl PathBits {
    /// No words, with room for so many.
    pub(crate) fn with_room(alloc: Global, room: usize) -> Result<PathBits, NoMemory>
        ensures { IfOk result (λ s. s ≡ no_bits_in room) }
    {
        Ok(PathBits {
            words: Vec::with_capacity(alloc, room)?,
            base: 0,
            room,
        })
    }

    /// No words, and room for none.
    pub(crate) fn empty(alloc: Global) -> PathBits
        ensures { result ≡ no_bits_in 0 }
    {
        PathBits {
            words: Vec::new(alloc),
            base: 0,
            room: 0,
        }
    }

    /// Forgets all words. The room stays.
    pub(crate) fn clear(&mut self)
        ensures { self.new ≡ no_bits_in self.old.room }
    {
        self.words.clear();
        self.base = 0;
    }

    /// A call begins with so many words, all 0.
    #[inline(always)]
    pub(crate) fn begin(&mut self, words: usize)
        requires { length self.old.below + length self.old.bits + words ≤ self.old.room }
        ensures { self.new ≡ begun_with words self.old }
    {
        self.base = self.words.len();
        for _ in 0..words {
            self.words.push_reserved(0);
        }
    }

    /// Where the words of the innermost call begin.
    #[inline(always)]
    pub(crate) fn place(&self) -> usize
        ensures { result ≡ length self.now.below }
    {
        self.base
    }

    /// A call ends, and the one before it, whose words begin in this place, is the innermost.
    #[inline(always)]
    pub(crate) fn end(&mut self, place: usize)
        requires { place ≤ length self.old.below }
        ensures { self.new ≡ back_to place self.old }
    {
        self.words.truncate(self.base);
        self.base = place;
    }

    /// The innermost call begins its walk by this row.
    pub(crate) fn begin_walk(&mut self, seen: &mut [u64], row: &[u64])
        requires long { length seen.old ≡ length self.old.bits }
        requires within { All (λ e. e.word < length self.old.bits) (begin_row row.now) }
        ensures words { begin_by (begin_row row.now) (words_of self.old.bits seen.old)
            ≡ words_of self.new.bits seen.new }
        ensures stays { self.new ≡ record self.old { bits = self.new.bits } }
        ensures long { length seen.new ≡ length seen.old }
    {
        begin(&mut self.words[self.base..], seen, row);
    }

    /// The walk of the innermost call goes on along an arc of this row.
    pub(crate) fn pass_arc(&mut self, seen: &mut [u64], row: &[u64])
        requires long { length seen.old ≡ length self.old.bits }
        requires within { All (λ e. e.word < length self.old.bits) (pass_row row.now) }
        ensures words { pass_by (pass_row row.now) (words_of self.old.bits seen.old)
            ≡ words_of self.new.bits seen.new }
        ensures stays { self.new ≡ record self.old { bits = self.new.bits } }
        ensures long { length seen.new ≡ length seen.old }
    {
        pass(&mut self.words[self.base..], seen, row);
    }
}
