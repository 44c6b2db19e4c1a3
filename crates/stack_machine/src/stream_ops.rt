//! The operations that read and put bytes.

ghost use Rattle.std.specs.Prelude.{◌≡◌, ◌<◌, ◌≤◌, ◌^◌, length};
ghost use Rattle.stack_ops.specs.declared.operation.Op.TheVariants as op;
ghost use Rattle.stack_ops.specs.Code.{FunctionValue, CodeValue};
ghost use Rattle.code_runs.specs.CodeRun.{does};
ghost use Rattle.stack_machine.specs.Store.{taken};
ghost use Rattle.stack_machine.specs.Points.{Ghosts, point, told, with_bytes, Stays};

use crate::call_ops::low_byte;
use crate::run::Run;
use crate::streams::Streams;
use stack_ops::{Outcome, Trap};

impl Run {
    /// Gives the next byte of the input, or -1 at its end.
    #[inline(always)]
    pub(crate) fn get_char<S: Streams>(&mut self, io: &mut S) -> Option<Outcome>
        requires room { taken self.old.store < self.old.store.room }
        requires at { self.old.at < 2 ^ 32 }
        ensures effect { (c : CodeValue) (f : FunctionValue) (s : Ghosts) → does c f op.GetChar
            (point self.old (with_bytes (S.left io.old) (S.written io.old) s))
            ≡ told result (point self.new (with_bytes (S.left io.new) (S.written io.new) s)) }
        ensures stays { Stays self.old self.new }
    {
        let n = match io.next() {
            Some(byte) => i128::from(byte),
            None => -1,
        };
        self.store.push(n);
        self.at += 1;
        None
    }

    /// Puts the number modulo 256 into the output and gives that byte.
    #[inline(always)]
    pub(crate) fn put_char<S: Streams>(&mut self, line: u32, io: &mut S) -> Option<Outcome>
        requires operands { 1 ≤ length self.old.store.operands }
        requires at { self.old.at < 2 ^ 32 }
        ensures effect { (c : CodeValue) (f : FunctionValue) (s : Ghosts)
            → does c f (op.PutChar line)
            (point self.old (with_bytes (S.left io.old) (S.written io.old) s))
            ≡ told result (point self.new (with_bytes (S.left io.new) (S.written io.new) s)) }
        ensures stays { Stays self.old self.new }
    {
        let byte = low_byte(self.store.pop());
        if !io.put(byte) {
            return Some(Outcome::Trapped(Trap::OutputLimit, line));
        }
        self.store.push(i128::from(byte));
        self.at += 1;
        None
    }
}
