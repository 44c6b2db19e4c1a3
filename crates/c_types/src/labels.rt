//! The labels of a `switch`.

ghost use Rattle.std.specs.Prelude.{◌≡◌, true, false, not, [], ◌∷◌, ◌++◌, IfOk, OnOk};
ghost use Rattle.c_typing.specs.StmtFaults as spec;

use indexmap::IndexSet;
use std::alloc::{AllocError, Global};
use std::marker::Model;

/// The labels so far: the numbers of the cases, and whether a default was there.
#[derive(Drop)]
pub struct Labels {
    values: IndexSet<i128>,
    default: bool,
}

impl Model for Labels {
    ghost use Rattle.c_typing.specs.StmtFaults.{Labels as Seen};

    ghost Value = { Seen };

    ghost view = { λ l. record { values = l.values.keys; default = l.default } };
}

impl Labels {
    /// No label yet.
    pub fn new(alloc: Global) -> Labels
        ensures { result ≡ spec.no_labels }
    {
        Labels {
            values: IndexSet::new(alloc),
            default: false,
        }
    }

    /// Whether a default was there.
    pub fn has_default(&self) -> bool
        ensures { result ≡ self.now.default }
    {
        self.default
    }

    /// A default.
    pub fn set_default(&mut self)
        ensures { self.new ≡ record { values = self.old.values; default = true } }
    {
        self.default = true;
    }

    /// A case of a number, and whether it is the first of this number.
    pub fn add(&mut self, number: i128) -> Result<bool, AllocError>
        ensures is_new { IfOk result
            (λ is_new. is_new ≡ not (spec.is_among number self.old.values)) }
        ensures added { spec.is_among number self.old.values ≡ false
            → OnOk result (self.new ≡ record {
              values = self.old.values ++ number ∷ [];
              default = self.old.default;
            }) }
    {
        Ok(self.values.insert(number)?)
    }
}
