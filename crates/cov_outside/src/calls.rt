// Which calls of an object in memory fail.
ghost use Rattle.std.specs.Prelude.{◌≡◌, IsTrue};
ghost use Rattle.cov_outside.specs.Outside.{HasCause};
ghost use Rattle.cov_outside.specs.Stores.{fails_next, log_call, new_log};

use std::marker::Model;

/// The numbers of the calls that fail, the number of the next call, and the count of faults. Both
/// stay at the greatest number once they are there.
#[derive(Drop)]
pub(crate) struct Calls {
    fails: Vec<u64>,
    next: u64,
    faults: u64,
}

impl Model for Calls {
    ghost use Rattle.cov_outside.specs.Stores.{CallLog};

    ghost Value = { CallLog };

    ghost view = { λ c. record { fails = c.fails.items; next = c.next; faults = c.faults } };
}

impl Calls {
    pub(crate) fn new(fails: Vec<u64>) -> Calls
        ensures { result ≡ new_log fails.items }
    {
        Calls {
            fails,
            next: 0,
            faults: 0,
        }
    }

    /// Counts a call, and says whether it fails.
    pub(crate) fn fails(&mut self) -> bool
        ensures fails { result ≡ fails_next self.old }
        ensures counts { self.new ≡ log_call self.old }
        ensures cause { HasCause self.old.faults self.new.faults (IsTrue result) }
    {
        let fails = self.fails.contains(&self.next);
        if fails {
            self.faults = self.faults.saturating_add(1);
        }
        self.next = self.next.saturating_add(1);
        fails
    }
}
