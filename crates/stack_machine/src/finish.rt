//! A run from its start to its end.

ghost use Rattle.std.specs.Prelude.{◌≡◌, ◌≤◌, ◌^◌, length, [], None};
ghost use Rattle.code_runs.specs.CodeChecks.{code_fault};
ghost use Rattle.stack_machine.specs.Held.{Sized, Roomy, RowsStart, Begins, ComesTo};
ghost use Rattle.stack_machine.specs.Points.{counters_of, words_of};

use crate::rows::RowStarts;
use crate::run::Run;
use crate::streams::Streams;
use stack_ops::{Code, Outcome};

impl Run {
    /// Runs a code from its start to its end. The run is moved, and the loop stands in a function
    /// of its own, so that its place stays in registers.
    #[inline(never)]
    pub(crate) fn finish<S: Streams>(
        self,
        code: &Code,
        rows: &Vec<RowStarts>,
        io: &mut S,
    ) -> (Outcome, Run)
        requires checked { code_fault code.now ≡ None }
        requires rows { RowsStart code.now rows.now.items }
        requires roomy { Roomy code.now self }
        requires begins { Begins code.now self }
        requires turns { self.turns ≤ 2 ^ 40 }
        requires written { S.written io.old ≡ [] }
        ensures ran { ComesTo code.now (S.left io.old) self.turns result.0 (S.written io.new)
            result.1 }
        ensures roomy { Roomy code.now result.1 }
        ensures globals { length result.1.globals ≡ length code.now.globals }
        ensures sized { Sized code.now (counters_of result.1.counts.items)
            (words_of result.1.counts.items) }
    {
        let mut here = self;
        loop {
            let function = here.function;
            let f = &code.functions[function];
            let starts = &rows[function];
            let ops = f.ops.as_slice();
            let mut op = &ops[here.at];
            loop {
                match here.step(op, f, starts, code, io) {
                    Some(ending) => return (ending, here),
                    None => {}
                }
                if here.function != function {
                    break;
                }
                op = &ops[here.at];
            }
        }
    }
}
