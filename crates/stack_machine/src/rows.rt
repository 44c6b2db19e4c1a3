//! Where the rows of a function's table start.

ghost use Rattle.std.specs.Prelude.{◌≡◌, ◌<◌, ◌≤◌, length, drop, slice_get, Some, IfOk};
ghost use Rattle.code_runs.specs.Tables.{row_length, behind_row};
ghost use Rattle.stack_machine.specs.Tables.{TableFits, StartsAt};

use cov_base::NoMemory;
use stack_ops::FunctionCode;
use std::alloc::Global;
use std::marker::Model;

/// The places in a function's table at which the rows of its arcs start.
#[derive(Drop)]
pub(crate) struct RowStarts {
    places: Vec<usize>,
}

impl Model for RowStarts {
    ghost use Rattle.std.specs.Prelude.{List, ℕ};

    ghost Value = { List ℕ };

    ghost view = { λ s. s.places.items };
}

/// Where the row behind that of an arc starts.
fn next_row(table: &[u64], at: usize) -> usize
    requires there { 0 < length (drop at table.now) }
    requires whole { row_length 4 (drop at table.now) ≤ length (drop at table.now) }
    ensures within { result ≤ length table.now }
    ensures behind { drop result table.now ≡ behind_row 4 (drop at table.now) }
{
    at + 1 + 4 * table[at] as usize
}

impl RowStarts {
    /// The places of a function's rows.
    pub(crate) fn of(alloc: Global, f: &FunctionCode) -> Result<RowStarts, NoMemory>
        requires { TableFits f.now }
        ensures { IfOk result (λ starts. StartsAt f.now starts) }
    {
        if f.paths == 0 {
            return Ok(RowStarts {
                places: Vec::new(alloc),
            });
        }
        let mut places = Vec::with_capacity(alloc, f.passes as usize)?;
        let table = f.table.as_slice();
        let mut at = 1 + 3 * table[0] as usize;
        for _ in 0..f.passes {
            places.push_reserved(at);
            at = next_row(table, at);
        }
        Ok(RowStarts { places })
    }

    /// The place of a row.
    #[inline(always)]
    pub(crate) fn place(&self, w: u32) -> usize
        requires { w < length self.now }
        ensures { slice_get self.now w ≡ Some result }
    {
        self.places[w as usize]
    }
}
