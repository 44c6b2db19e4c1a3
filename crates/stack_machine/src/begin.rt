//! Where each run begins, and the room that a code takes.

ghost use Rattle.std.specs.Prelude.{◌≡◌, ◌+◌, ◌*◌, ◌<◌, ◌≤◌, ◌^◌, ℕ, map, length, replicate, None, Some, slice_get, All, IfOk};
ghost use Rattle.code_runs.specs.CodeChecks.{code_fault};
ghost use Rattle.code_runs.specs.Tables as spec;
ghost use Rattle.stack_ops.specs.Code.{FunctionValue};
ghost use Rattle.stack_machine.specs.Counts.{zeros_of, cleared};
ghost use Rattle.stack_machine.specs.Held.{Sized, Roomy, RowsStart, Begins};
ghost use Rattle.stack_machine.specs.Points.{counters_of, words_of};
ghost use Rattle.stack_machine.specs.Tables.{TableFits, StartsAt};

use crate::bits::PathBits;
use crate::call_ops::words_in;
use crate::counts::FunctionCounts;
use crate::globals::Globals;
use crate::rows::RowStarts;
use crate::run::Run;
use crate::store::Store;
use cov_base::NoMemory;
use stack_ops::{Code, FunctionCode};
use std::alloc::Global;

/// The most cells and operands that one call takes.
fn most_numbers(functions: &[FunctionCode]) -> usize
    requires { All (λ f. (f.cells ≤ 4096) × (f.depth ≤ 16384)) functions.now }
    ensures most { All (λ f. f.cells + f.depth ≤ result) functions.now }
    ensures few { result ≤ 20480 }
{
    let mut most = 0;
    for f in functions {
        let numbers = f.cells as usize + f.depth as usize;
        if most < numbers {
            most = numbers;
        }
    }
    most
}

/// The most path words that one call takes.
fn most_words(functions: &[FunctionCode]) -> usize
    requires { All (λ f. f.paths ≤ 65536) functions.now }
    ensures most { All (λ f. spec.words_in f.paths ≤ result) functions.now }
    ensures few { result ≤ 1024 }
{
    let mut most = 0;
    for f in functions {
        let words = words_in(f.paths);
        if most < words {
            most = words;
        }
    }
    most
}

/// The counts of each function, all 0.
fn zero_counts(alloc: Global, functions: &[FunctionCode]) -> Result<Vec<FunctionCounts>, NoMemory>
    ensures { IfOk result (λ counts. counts.items ≡ map zeros_of functions.now) }
{
    let mut counts = Vec::with_capacity(alloc, functions.len())?;
    for f in functions {
        counts.push(FunctionCounts::new(alloc, f.counters as usize, words_in(f.paths))?)?;
    }
    Ok(counts)
}

/// Makes all counts 0.
fn clear_counts(counts: &mut [FunctionCounts])
    ensures { counts.new ≡ map cleared counts.old }
{
    for i in 0..counts.len() {
        let one = &mut counts[i];
        one.clear();
    }
}

/// Where the rows of each function's table start.
pub(crate) fn row_starts(
    alloc: Global,
    functions: &[FunctionCode],
) -> Result<Vec<RowStarts>, NoMemory>
    requires { All TableFits functions.now }
    ensures { IfOk result (λ rows. (i : ℕ) (f : FunctionValue) → slice_get functions.now i ≡ Some f
        → (starts : _) × (slice_get rows.items i ≡ Some starts) × StartsAt f starts) }
{
    let mut rows = Vec::with_capacity(alloc, functions.len())?;
    for f in functions {
        rows.push(RowStarts::of(alloc, f)?)?;
    }
    Ok(rows)
}

impl Run {
    /// Takes the room for runs of a code, and has counted nothing.
    pub(crate) fn with_room(alloc: Global, code: &Code) -> Result<Run, NoMemory>
        requires { code_fault code.now ≡ None }
        ensures roomy { IfOk result (λ r. Roomy code.now r) }
        ensures globals { IfOk result (λ r. length r.globals ≡ length code.now.globals) }
        ensures counts { IfOk result (λ r. r.counts.items ≡ map zeros_of code.now.functions) }
    {
        let numbers = most_numbers(&code.functions);
        let words = most_words(&code.functions);
        Ok(Run {
            store: Store::with_room(alloc, 2001 * numbers + 1)?,
            bits: PathBits::with_room(alloc, 2001 * words)?,
            globals: Globals::new(alloc, &code.globals)?,
            counts: zero_counts(alloc, &code.functions)?,
            frames: Vec::with_capacity(alloc, 2000)?,
            function: 0,
            at: 0,
            turns: 0,
        })
    }

    /// Goes to the start of a code.
    pub(crate) fn begin(&mut self, code: &Code, turns: u64)
        requires checked { code_fault code.now ≡ None }
        requires roomy { Roomy code.now self.old }
        requires globals { length self.old.globals ≡ length code.now.globals }
        requires sized { Sized code.now (counters_of self.old.counts.items)
            (words_of self.old.counts.items) }
        ensures roomy { Roomy code.now self.new }
        ensures begins { Begins code.now self.new }
        ensures turns { self.new.turns ≡ turns }
    {
        let main = &code.functions[code.main as usize];
        self.store.clear();
        self.store.begin(0, main.cells);
        self.bits.clear();
        self.bits.begin(words_in(main.paths));
        self.globals.set(&code.globals);
        clear_counts(&mut self.counts);
        self.frames.clear();
        self.function = code.main as usize;
        self.at = 0;
        self.turns = turns;
    }
}
