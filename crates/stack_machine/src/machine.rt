//! The machine.

ghost use Rattle.std.specs.Prelude.{◌≡◌, ◌≤◌, ◌^◌, [], None, IfOk, slice_index_or};
ghost use Rattle.code_runs.specs.CodeRun.{Ran, CodeRun};
ghost use Rattle.code_runs.specs.CodeChecks.{code_fault};
ghost use Rattle.stack_machine.specs.Machine.{at_rest, Shows};

use crate::begin::row_starts;
use crate::rows::RowStarts;
use crate::run::Run;
use crate::streams::Slices;
use cov_base::{NoMemory, OUTPUT_LIMIT};
use stack_ops::{Code, Outcome};
use std::alloc::Global;
use std::marker::Model;
use std::mem;

/// A machine with a code, which it runs as often as it is told. It took all memory that runs need.
#[derive(Drop)]
pub struct Machine {
    alloc: Global,
    code: Code,
    turns: u64,
    rows: Vec<RowStarts>,
    run: Run,
    output: Vec<u8>,
}

impl Model for Machine {
    ghost use Rattle.stack_machine.specs.Machine.{MachineValue};

    ghost Value = { MachineValue };

    ghost use Rattle.std.specs.Prelude.{vec_capacity};
    ghost use Rattle.stack_machine.specs.Points.{counters_of, words_of};
    ghost use Rattle.stack_machine.specs.Served.{Serves};

    ghost view = { λ m. record {
      code = m.code;
      turns = m.turns;
      output = m.output.items;
      counters = counters_of m.run.counts.items;
      words = words_of m.run.counts.items;
    } };

    ghost invariant = { λ m. Serves m.code m.turns m.rows.items m.run (vec_capacity m.output) };
}

impl Machine {
    /// A machine for a code that breaks no rule, with so many turns for each run, at most 2 to 40.
    /// It takes the memory of all runs: 2,000 calls with the cells, operands and path bits that the
    /// code's functions have, its counters and path words, and the output.
    pub fn new(alloc: Global, code: Code, turns: u64) -> Result<Machine, NoMemory>
        requires checked { code_fault code ≡ None }
        requires turns { turns ≤ 2 ^ 40 }
        ensures { IfOk result (λ m. m ≡ at_rest code turns) }
    {
        let rows = row_starts(alloc, &code.functions)?;
        let run = Run::with_room(alloc, &code)?;
        let output = Vec::with_capacity(alloc, OUTPUT_LIMIT)?;
        Ok(Machine {
            alloc,
            code,
            turns,
            rows,
            run,
            output,
        })
    }

    /// Runs the code on an input from its start, whatever ran before. It takes no memory.
    pub fn run(&mut self, input: &[u8]) -> Outcome
        ensures ran { (ran : Ran) × CodeRun self.old.code input.now self.old.turns ran
            × Shows ran result self.new }
        ensures only { (ran : Ran) → CodeRun self.old.code input.now self.old.turns ran
            → Shows ran result self.new }
        ensures code { self.new.code ≡ self.old.code }
        ensures turns { self.new.turns ≡ self.old.turns }
    {
        self.run.begin(&self.code, self.turns);
        self.output.clear();
        let mut io = Slices {
            input,
            output: mem::replace(&mut self.output, Vec::new(self.alloc)),
        };
        let start = mem::replace(&mut self.run, Run::nowhere(self.alloc));
        let (ending, end) = start.finish(&self.code, &self.rows, &mut io);
        self.run = end;
        self.output = io.output;
        ending
    }

    /// The bytes that the last run put; none before the first run.
    pub fn output(&self) -> &[u8]
        ensures { result.now ≡ self.now.output }
    {
        &self.output
    }

    /// The counters of a function after the last run, all 0 before the first; none where the code
    /// has no function with this number.
    pub fn counters(&self, function: u32) -> &[u64]
        ensures { result.now ≡ slice_index_or self.now.counters function [] }
    {
        match self.run.counts.get(function as usize) {
            Some(counts) => counts.counters(),
            None => &[],
        }
    }

    /// The path words of a function after the last run, all 0 before the first; none where the code
    /// has no function with this number.
    pub fn path_words(&self, function: u32) -> &[u64]
        ensures { result.now ≡ slice_index_or self.now.words function [] }
    {
        match self.run.counts.get(function as usize) {
            Some(counts) => counts.words(),
            None => &[],
        }
    }

    /// The code.
    pub fn code(&self) -> &Code
        ensures { result.now ≡ self.now.code }
    {
        &self.code
    }
}
