//! The operations that begin and end calls, and the run.

ghost use Rattle.std.specs.Prelude.{◌≡◌, ◌+◌, ◌<◌, ◌≤◌, ◌^◌, length, reverse, slice_get, Some, cond};
ghost use Rattle.stack_ops.specs.declared.operation.Op.TheVariants as op;
ghost use Rattle.stack_ops.specs.Code.{FunctionValue, CodeValue};
ghost use Rattle.stack_ops.specs.Effect.{byte_of};
ghost use Rattle.code_runs.specs.CodeRun.{does, leaves};
ghost use Rattle.code_runs.specs.Tables as spec;
ghost use Rattle.stack_machine.specs.Bits.{back_to};
ghost use Rattle.stack_machine.specs.Store.{taken, ended};
ghost use Rattle.stack_machine.specs.Points.{Ghosts, point, told, entered, left, where_on, Acts, FramesFit, Stays, Keeps};

use crate::frame::Frame;
use crate::run::Run;
use stack_ops::{FunctionCode, Outcome, Trap};

/// A number modulo 256.
#[inline(always)]
pub(crate) fn low_byte(n: i128) -> u8
    ensures { result ≡ byte_of n }
{
    n.rem_euclid(256) as u8
}

/// How many words hold a bit for each of so many paths.
#[inline(always)]
pub(crate) fn words_in(paths: u32) -> usize
    ensures { result ≡ spec.words_in paths }
{
    (paths as usize + 63) / 64
}

impl Run {
    /// A call of the function begins, where turns are left and fewer than 2,000 calls are open.
    #[inline(always)]
    pub(crate) fn call(
        &mut self,
        function: u32,
        called: &FunctionCode,
        line: u32,
    ) -> Option<Outcome>
        requires operands { called.now.params ≤ length self.old.store.operands }
        requires cells { called.now.params ≤ called.now.cells }
        requires room { taken self.old.store + called.now.cells
            ≤ self.old.store.room + called.now.params }
        requires bits { length self.old.bits.below + length self.old.bits.bits
            + spec.words_in called.now.paths ≤ self.old.bits.room }
        requires frames { 2000 ≤ self.old.frames.cap }
        requires at { self.old.at < 2 ^ 32 }
        ensures effect { (c : CodeValue) (f : FunctionValue) (s : Ghosts)
            → slice_get c.functions function ≡ Some called.now
            → does c f (op.Call function line) (point self.old s)
            ≡ told result (point self.new (where_on result (entered function s) s)) }
        ensures keeps { Keeps self.old self.new }
    {
        if self.turns == 0 {
            return Some(Outcome::OutOfTurns);
        }
        self.turns -= 1;
        if self.frames.len() >= 1999 {
            return Some(Outcome::Trapped(Trap::CallDepth, line));
        }
        let (base, floor) = self.store.place();
        let bits = self.bits.place();
        self.frames.push_reserved(Frame {
            function: self.function,
            at: self.at + 1,
            base,
            floor,
            bits,
        });
        self.store.begin(called.params, called.cells);
        self.bits.begin(words_in(called.paths));
        self.function = function as usize;
        self.at = 0;
        None
    }

    /// The call ends, and gives its number where it gives one.
    #[inline(always)]
    pub(crate) fn leave(&mut self, gives: bool) -> Option<Outcome>
        requires operands { cond gives 1 0 ≤ length self.old.store.operands }
        requires frames { FramesFit (reverse self.old.frames.items) (length self.old.store.below)
            (length self.old.bits.below) }
        ensures effect { (s : Ghosts) → leaves gives (point self.old s)
            ≡ told result (point self.new (where_on result (left s) s)) }
        ensures keeps { Keeps self.old self.new }
    {
        if !gives {
            let Some(frame) = self.frames.pop() else {
                return Some(Outcome::Returned(0));
            };
            self.go_back(frame);
            return None;
        }
        let n = self.store.pop();
        let Some(frame) = self.frames.pop() else {
            return Some(Outcome::Returned(low_byte(n)));
        };
        self.go_back(frame);
        self.store.push(n);
        None
    }

    /// The caller goes on.
    #[inline(always)]
    fn go_back(&mut self, frame: Frame)
        requires inner { frame.base ≤ frame.floor }
        requires below { frame.floor ≤ length self.old.store.below }
        requires bits { frame.bits ≤ length self.old.bits.below }
        ensures back { self.new ≡ record self.old {
          store = ended frame.base frame.floor self.old.store;
          bits = back_to frame.bits self.old.bits;
          function = frame.function;
          at = frame.at;
        } }
        ensures within { taken self.new.store ≡ length self.old.store.below }
    {
        self.store.end((frame.base, frame.floor));
        self.bits.end(frame.bits);
        self.function = frame.function;
        self.at = frame.at;
    }

    /// Takes a number and ends the run with it.
    #[inline(always)]
    pub(crate) fn exit(&mut self) -> Option<Outcome>
        requires operands { 1 ≤ length self.old.store.operands }
        ensures effect { Acts op.Exit self.old result self.new }
        ensures stays { Stays self.old self.new }
    {
        let n = self.store.pop();
        Some(Outcome::Exited(low_byte(n)))
    }
}
