//! The numbers that globals begin with.

ghost use Rattle.std.specs.Prelude.{◌≡◌, ◌+◌, ◌^◌, ◌<◌, ◌≤◌, ◌++◌, [], length, replicate, IfOk, OnOk, OnErr};
ghost use Rattle.c_tree.specs.Runs.{all_of};

use std::alloc::{AllocError, Global};
use std::marker::Model;

/// A number, and how often it stands there in a row.
#[derive(Clone, Copy, Debug, PartialEq, Eq)]
pub struct NumberRun {
    pub number: i128,
    pub count: u64,
}

/// A list of numbers, held as runs of equal ones, since a short text can ask for a long list.
#[derive(Debug, Drop)]
pub struct Globals {
    runs: Vec<NumberRun>,
    total: u64,
}

impl Model for Globals {
    ghost use Rattle.std.specs.Prelude.{◌≡◌, List, ℤ, length};
    ghost use Rattle.c_tree.specs.Runs.{all_of};

    ghost Value = { List ℤ };

    ghost view = { λ g. all_of g.runs.items };

    ghost invariant = { λ g. g.total ≡ length (all_of g.runs.items) };
}

impl Globals {
    /// No numbers.
    pub fn new(alloc: Global) -> Globals
        ensures { result ≡ [] }
    {
        Globals {
            runs: Vec::new(alloc),
            total: 0,
        }
    }

    /// Appends the number so often.
    #[tactic(auto, using(crate::proofs::RunLaws::one_more, crate::proofs::RunLaws::longer))]
    pub fn push(&mut self, number: i128, count: u64) -> Result<(), AllocError>
        requires { length self.old + count < 2 ^ 64 }
        ensures ok { OnOk result (self.new ≡ self.old ++ replicate count number) }
        ensures err { OnErr result (self.new ≡ self.old) }
    {
        self.runs.push(NumberRun { number, count })?;
        self.total += count;
        Ok(())
    }

    /// How many numbers there are.
    pub fn len(&self) -> u64
        ensures { result ≡ length self.now }
    {
        self.total
    }

    /// The runs, one behind another.
    pub fn runs(&self) -> &[NumberRun]
        ensures { all_of result.now ≡ self.now }
    {
        &self.runs
    }
}
