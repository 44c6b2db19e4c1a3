//! The paths of a word, and the words whose bits tell which of them pass a test.

ghost use Rattle.std.specs.Prelude.{◌≡◌, ◌<◌, ◌≤◌, nat_lt, if◌then◌else◌};
ghost use Rattle.std.specs.List.{list_any};
ghost use Rattle.path_masks.specs.Masks.{one_if, word_of, width as width_of, chunk as chunk_of};
ghost use Rattle.path_masks.specs.PathTests as tests;

use crate::path_test::PathTest;
use prime_paths::Paths;
use std::marker::Model;

/// At most 64 paths, from one index to another.
#[derive(Drop)]
pub struct Chunk<'a> {
    paths: &'a Paths,
    from: u32,
    to: u32,
}

impl<'a> Model for Chunk<'a> {
    ghost use Rattle.std.specs.Prelude.{List, ℕ, ◌-◌, take, drop};
    ghost use Rattle.path_masks.specs.Chunks.{IsChunk};

    ghost Value = { List (List ℕ) };

    ghost view = { λ c. take (c.to - c.from) (drop c.from c.paths.now) };

    ghost invariant = { λ c. IsChunk c.from c.to c.paths.now };
}

/// How many words so many paths have.
pub fn width(paths: &Paths) -> u32
    ensures { result ≡ width_of paths.now }
{
    paths.len().div_ceil(64)
}

fn bit(holds: bool) -> u64
    ensures value { result ≡ one_if holds }
    ensures most { result ≤ 1 }
{
    if holds { 1 } else { 0 }
}

fn up_to_64(left: u32) -> u32
    ensures value { result ≡ (if nat_lt left 64 then left else 64) }
    ensures within { result ≤ left }
    ensures few { result ≤ 64 }
{
    if left < 64 { left } else { 64 }
}

impl<'a> Chunk<'a> {
    /// The paths of the word of this number.
    pub fn of(paths: &'a Paths, word: u32) -> Chunk<'a>
        requires { word < width_of paths.now }
        ensures { result ≡ chunk_of paths.now word }
    {
        let count = paths.len();
        let from = word * 64;
        let to = from + up_to_64(count - from);
        Chunk { paths, from, to }
    }

    /// Whether some path passes the test.
    pub fn any(&self, test: PathTest) -> bool
        ensures { result ≡ list_any (tests.passes test) self.now }
    {
        for k in self.from..self.to {
            if test.passes(self.paths.path(k)) {
                return true;
            }
        }
        false
    }

    /// The word whose bits tell of each path whether it passes the test, the lowest of the first.
    pub fn word(&self, test: PathTest) -> u64
        ensures { result ≡ word_of (tests.passes test) self.now }
    {
        let mut word = 0u64;
        let mut k = self.to;
        while k > self.from {
            k -= 1;
            word = word * 2 + bit(test.passes(self.paths.path(k)));
        }
        word
    }
}
