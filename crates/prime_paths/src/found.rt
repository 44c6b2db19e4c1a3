//! What the search has found, and how far it may go on.

ghost use Rattle.std.specs.Prelude.{◌≡◌, ◌+◌, ◌<◌, ◌≤◌, ◌++◌, [], length};
ghost use Rattle.prime_paths.specs.Search as spec;

use crate::store::Paths;
use std::alloc::{AllocError, AllocFailed, Global};
use std::marker::Model;
use std::sync::ledger::Ledger;
use word_rules::Steps;

/// Why a search stops before its end.
#[derive(Clone, Copy)]
pub enum Stop {
    /// There are more prime paths than the limit.
    LimitPassed,
    /// Memory ran out.
    NoMemory,
}

impl From<AllocError> for Stop {
    ghost use Rattle.std.specs.Prelude.{◌≡◌};
    ghost use Rattle.prime_paths.specs.declared.found.Stop.TheVariants as stop;

    ghost from_gives = { λ _ e. e ≡ stop.NoMemory };

    fn from(_: AllocError) -> Self {
        Stop::NoMemory
    }
}

/// The paths found, how many may be, and how many more simple paths may be extended.
#[derive(Drop)]
pub struct Found {
    paths: Paths,
    limit: u32,
    left: u64,
}

impl Model for Found {
    ghost use Rattle.std.specs.Prelude.{◌≤◌, length};
    ghost use Rattle.prime_paths.specs.Search.{FoundValue};

    ghost Value = { FoundValue };

    ghost view = { λ f. record { paths = f.paths; limit = f.limit; left = f.left } };

    ghost invariant = { λ f. length f.paths ≤ f.limit };
}

impl Found {
    /// Nothing found yet.
    pub fn new(alloc: Global, limit: u32, left: u64) -> Found
        ensures { result ≡ record { paths = []; limit = limit; left = left } }
    {
        Found {
            paths: Paths::new(alloc),
            limit,
            left,
        }
    }

    /// The paths that were found.
    pub fn into_paths(self) -> Paths
        ensures value { result ≡ self.paths }
        ensures few { length self.paths ≤ self.limit }
    {
        self.paths
    }

    /// A simple path is extended, which takes a step.
    pub fn extend<L: Ledger>(&mut self, steps: &mut Steps<L>) -> Result<(), Stop>
        ensures found { spec.Comes (spec.charged self.old) self.new result }
        ensures steps { steps.new + self.new.left ≡ steps.old + self.old.left }
    {
        if self.left == 0 {
            return Err(Stop::LimitPassed);
        }
        self.left -= 1;
        steps.tick();
        Ok(())
    }

    /// One path more is found, of a front and a rest.
    pub fn add(&mut self, front: &[u32], rest: &[u32]) -> Result<(), Stop>
        ensures found { spec.Comes (spec.added (front.now ++ rest.now) self.old) self.new result }
        ensures left { self.new.left ≡ self.old.left }
    {
        if self.paths.len() < self.limit {
            self.paths.add(front, rest)?;
            return Ok(());
        }
        Err(Stop::LimitPassed)
    }
}
