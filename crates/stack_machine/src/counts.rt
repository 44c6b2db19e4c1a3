//! What a run counts in a function.

ghost use Rattle.std.specs.Prelude.{◌≡◌, ◌+◌, ◌<◌, ◌≤◌, ◌^◌, suc, length, replicate, slice_index_or, All, IfOk};
ghost use Rattle.word_rules.specs.WordRules.{words_of, begin_row, pass_row, begin_by, pass_by};
ghost use Rattle.code_runs.specs.CodeRun.{at_index};

use crate::bits::PathBits;
use cov_base::NoMemory;
use std::alloc::Global;
use std::marker::Model;

/// The counters of a function, and the words of the paths that its calls contained.
#[derive(Drop)]
pub(crate) struct FunctionCounts {
    counters: Vec<u64>,
    words: Vec<u64>,
}

impl Model for FunctionCounts {
    ghost use Rattle.stack_machine.specs.Counts.{CountsValue};

    ghost Value = { CountsValue };

    ghost view = { λ s. record { counters = s.counters.items; words = s.words.items } };
}

impl FunctionCounts {
    /// So many counters and words, all 0.
    pub(crate) fn new(
        alloc: Global,
        counters: usize,
        words: usize,
    ) -> Result<FunctionCounts, NoMemory>
        ensures { IfOk result
            (λ s. s ≡ record { counters = replicate counters 0; words = replicate words 0 }) }
    {
        Ok(FunctionCounts {
            counters: Vec::from_elem(alloc, 0, counters)?,
            words: Vec::from_elem(alloc, 0, words)?,
        })
    }

    /// Makes all counters and words 0.
    pub(crate) fn clear(&mut self)
        ensures { self.new ≡ record {
          counters = replicate (length self.old.counters) 0;
          words = replicate (length self.old.words) 0;
        } }
    {
        self.counters.fill(0);
        self.words.fill(0);
    }

    /// One more in a counter.
    #[inline(always)]
    #[tactic(auto, using(crate::proofs::OneMore::one_more))]
    pub(crate) fn count(&mut self, n: u32)
        requires there { n < length self.old.counters }
        requires few { slice_index_or self.old.counters n 0 + 1 < 2 ^ 64 }
        ensures { self.new ≡ record self.old { counters = at_index suc n self.old.counters } }
    {
        self.counters[n as usize] += 1;
    }

    /// A call whose path bits are the innermost begins its walk by this row.
    pub(crate) fn begin_walk(&mut self, bits: &mut PathBits, row: &[u64])
        requires long { length self.old.words ≡ length bits.old.bits }
        requires within { All (λ e. e.word < length bits.old.bits) (begin_row row.now) }
        ensures words { begin_by (begin_row row.now) (words_of bits.old.bits self.old.words)
            ≡ words_of bits.new.bits self.new.words }
        ensures counters { self.new ≡ record self.old { words = self.new.words } }
        ensures bits { bits.new ≡ record bits.old { bits = bits.new.bits } }
    {
        bits.begin_walk(&mut self.words, row);
    }

    /// The walk of that call goes on along an arc of this row.
    pub(crate) fn pass_arc(&mut self, bits: &mut PathBits, row: &[u64])
        requires long { length self.old.words ≡ length bits.old.bits }
        requires within { All (λ e. e.word < length bits.old.bits) (pass_row row.now) }
        ensures words { pass_by (pass_row row.now) (words_of bits.old.bits self.old.words)
            ≡ words_of bits.new.bits self.new.words }
        ensures counters { self.new ≡ record self.old { words = self.new.words } }
        ensures bits { bits.new ≡ record bits.old { bits = bits.new.bits } }
    {
        bits.pass_arc(&mut self.words, row);
    }

    /// The counters.
    pub(crate) fn counters(&self) -> &[u64]
        ensures { result.now ≡ self.now.counters }
    {
        &self.counters
    }

    /// The words of the paths that were contained.
    pub(crate) fn words(&self) -> &[u64]
        ensures { result.now ≡ self.now.words }
    {
        &self.words
    }
}
