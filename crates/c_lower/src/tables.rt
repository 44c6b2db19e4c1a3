//! Tables of the labels of a `switch`.

ghost use Rattle.std.specs.Prelude.{◌≡◌, ◌++◌, ◌∷◌, [], Some, None, OnOk};
ghost use Rattle.c_lower.specs.Items as items;
ghost use Rattle.c_lower.specs.CloseView.{close_view};
ghost use Rattle.c_lower.specs.Tables.{default_or};

use crate::named::{Close, Label};
use std::alloc::{AllocError, Global};
use std::marker::Model;

/// The cases with their blocks, and the block of the default.
#[derive(Debug, Drop)]
pub struct Table {
    cases: Vec<(i128, Label)>,
    default: Option<Label>,
}

impl Model for Table {
    ghost use Rattle.std.specs.Prelude.{map};
    ghost use Rattle.c_lower.specs.Tables.{Cases};

    ghost Value = { Cases };

    ghost view = { λ t. record {
      cases = map (λ c. (c.0, c.1)) t.cases.items;
      default = t.default;
    } };
}

impl Table {
    /// No labels.
    pub fn new(alloc: Global) -> Table
        ensures { result ≡ record { cases = []; default = None } }
    {
        Table {
            cases: Vec::new(alloc),
            default: None,
        }
    }

    /// A case and its block.
    pub fn add(&mut self, number: i128, label: Label) -> Result<(), AllocError>
        ensures { OnOk result (self.new ≡ record {
          cases = self.old.cases ++ (number, label) ∷ [];
          default = self.old.default;
        }) }
    {
        self.cases.push((number, label))?;
        Ok(())
    }

    /// The block of the default. The first one counts.
    pub fn add_default(&mut self, label: Label)
        ensures { self.new ≡ record {
          cases = self.old.cases;
          default = Some (default_or self.old.default label);
        } }
    {
        if self.default.is_none() {
            self.default = Some(label);
        }
    }

    /// The ending that selects; it goes to the end where there is no default.
    pub fn into_close(self, end: Label) -> Close
        ensures { close_view result ≡ items.Close.Select self.cases (default_or self.default end) }
    {
        match self.default {
            Some(default) => Close::Select(self.cases, default),
            None => Close::Select(self.cases, end),
        }
    }
}
