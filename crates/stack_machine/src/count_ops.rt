//! The operations that count arcs and mark paths.

ghost use Rattle.std.specs.Prelude.{◌≡◌, ◌+◌, ◌*◌, ◌<◌, ◌≤◌, ◌^◌, length, drop, slice_get, slice_index_or, Some, All};
ghost use Rattle.stack_ops.specs.declared.operation.Op.TheVariants as op;
ghost use Rattle.stack_ops.specs.Code.{FunctionValue, CodeValue};
ghost use Rattle.code_runs.specs.CodeRun.{does};
ghost use Rattle.code_runs.specs.Tables.{passes_from, behind_row};
ghost use Rattle.stack_machine.specs.Counts.{CountsValue};
ghost use Rattle.stack_machine.specs.Tables.{BeginFits, PassFits};
ghost use Rattle.stack_machine.specs.Points.{Ghosts, point, told, marking, Acts, Stays};

use crate::run::Run;
use stack_ops::Outcome;

impl Run {
    /// Adds one to a counter of the function.
    #[inline(always)]
    pub(crate) fn count(&mut self, n: u32) -> Option<Outcome>
        requires there { self.old.function < length self.old.counts.items }
        requires counter { (v : CountsValue)
            → slice_get self.old.counts.items self.old.function ≡ Some v
            → (n < length v.counters) × (slice_index_or v.counters n 0 + 1 < 2 ^ 64) }
        requires at { self.old.at < 2 ^ 32 }
        ensures effect { Acts (op.Count n) self.old result self.new }
        ensures stays { Stays self.old self.new }
    {
        let counts = &mut self.counts[self.function];
        counts.count(n);
        self.at += 1;
        None
    }

    /// Begins the paths of the call, by the first row of its function's table.
    pub(crate) fn path_begin(&mut self, table: &[u64]) -> Option<Outcome>
        requires there { self.old.function < length self.old.counts.items }
        requires words { (v : CountsValue)
            → slice_get self.old.counts.items self.old.function ≡ Some v
            → length v.words ≡ length self.old.bits.bits }
        requires fits { BeginFits (length self.old.bits.bits) table.now }
        requires at { self.old.at < 2 ^ 32 }
        ensures effect { (c : CodeValue) (f : FunctionValue) (s : Ghosts) → f.table ≡ table.now
            → does c f op.PathBegin (point self.old s)
            ≡ told result (point self.new (marking op.PathBegin s)) }
        ensures stays { Stays self.old self.new }
    {
        let end = 1 + 3 * table[0] as usize;
        let counts = &mut self.counts[self.function];
        counts.begin_walk(&mut self.bits, &table[..end]);
        self.at += 1;
        None
    }

    /// Passes the row of the table with this number, which starts there.
    pub(crate) fn path_pass(&mut self, w: u32, start: usize, table: &[u64]) -> Option<Outcome>
        requires there { self.old.function < length self.old.counts.items }
        requires words { (v : CountsValue)
            → slice_get self.old.counts.items self.old.function ≡ Some v
            → length v.words ≡ length self.old.bits.bits }
        requires starts { drop start table.now ≡ passes_from w (behind_row 3 table.now) }
        requires fits { PassFits (length self.old.bits.bits) (drop start table.now) }
        requires at { self.old.at < 2 ^ 32 }
        ensures effect { (c : CodeValue) (f : FunctionValue) (s : Ghosts) → f.table ≡ table.now
            → does c f (op.PathPass w) (point self.old s)
            ≡ told result (point self.new (marking (op.PathPass w) s)) }
        ensures stays { Stays self.old self.new }
    {
        let rest = &table[start..];
        let end = 1 + 4 * rest[0] as usize;
        let counts = &mut self.counts[self.function];
        counts.pass_arc(&mut self.bits, &rest[..end]);
        self.at += 1;
        None
    }
}
