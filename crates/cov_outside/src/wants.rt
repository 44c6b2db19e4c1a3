// How often memory was wanting.
ghost use Rattle.std.specs.Prelude.{◌≡◌, IsErrOf};
ghost use Rattle.cov_outside.specs.Outside.{HasCause};
ghost use Rattle.cov_outside.specs.Stores.{wants_after};

use crate::faults::SinkFault;
use std::marker::Model;

/// The count of wants of memory. It stays at the greatest number once it is there.
#[derive(Drop)]
pub(crate) struct Wants {
    count: u64,
}

impl Model for Wants {
    ghost use Rattle.std.specs.Prelude.{ℕ};

    ghost Value = { ℕ };

    ghost view = { λ w. w.count };
}

impl Wants {
    pub(crate) fn new() -> Wants
        ensures { result ≡ 0 }
    {
        Wants { count: 0 }
    }

    /// Counts the answer of a write, if memory was wanting.
    pub(crate) fn count(&mut self, answer: &Result<usize, SinkFault>)
        ensures counts { self.new ≡ wants_after answer.now self.old }
        ensures cause { HasCause self.old self.new (IsErrOf answer.now SinkFault.NoMemory) }
    {
        if let Err(SinkFault::NoMemory) = answer {
            self.count = self.count.saturating_add(1);
        }
    }
}
