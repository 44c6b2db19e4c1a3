//! The operators.

ghost use Rattle.std.specs.Prelude.{◌≡◌, ◌<◌, ◌≤◌, ◌^◌, length};
ghost use Rattle.int_ops.specs.Apply.{binary, unary};
ghost use Rattle.stack_ops.specs.Effect.{on_two, on_one};
ghost use Rattle.stack_ops.specs.Effect as spec;
ghost use Rattle.code_runs.specs.CodeRun.{stepped, state_of};
ghost use Rattle.stack_machine.specs.Points.{Ghosts, point, told, Stays};

use crate::quick::{quick_of, quick_one};
use crate::run::Run;
use int_ops::{ArithTrap, BinOp, IntType, UnOp, binary, unary};
use stack_ops::{Outcome, Trap};

/// The trap of the same name.
fn trap_of(why: ArithTrap) -> Trap
    ensures { result ≡ spec.trap_of why }
{
    match why {
        ArithTrap::Overflow => Trap::Overflow,
        ArithTrap::DivideByZero => Trap::DivideByZero,
        ArithTrap::ShiftRange => Trap::ShiftRange,
    }
}

impl Run {
    /// An operator on the two numbers at the top, the left one below the right one.
    #[inline(always)]
    pub(crate) fn on_two(&mut self, op: BinOp, t: IntType, line: u32) -> Option<Outcome>
        requires operands { 2 ≤ length self.old.store.operands }
        requires at { self.old.at < 2 ^ 32 }
        ensures effect { (s : Ghosts) → stepped
            (on_two (binary op t) line self.old.store.operands (state_of (point self.old s)))
            (point self.old s) ≡ told result (point self.new s) }
        ensures stays { Stays self.old self.new }
    {
        let b = self.store.pop();
        let a = self.store.pop();
        if let Some(n) = quick_of(op, t, a, b) {
            self.store.push(i128::from(n));
            self.at += 1;
            return None;
        }
        match binary(op, t, a, b) {
            Ok(n) => {
                self.store.push(n);
                self.at += 1;
                None
            }
            Err(why) => Some(Outcome::Trapped(trap_of(why), line)),
        }
    }

    /// An operator on the number at the top.
    #[inline(always)]
    pub(crate) fn on_one(&mut self, op: UnOp, t: IntType, line: u32) -> Option<Outcome>
        requires operands { 1 ≤ length self.old.store.operands }
        requires at { self.old.at < 2 ^ 32 }
        ensures effect { (s : Ghosts) → stepped
            (on_one (unary op t) line self.old.store.operands (state_of (point self.old s)))
            (point self.old s) ≡ told result (point self.new s) }
        ensures stays { Stays self.old self.new }
    {
        let a = self.store.pop();
        if let Some(n) = quick_one(op, t, a) {
            self.store.push(i128::from(n));
            self.at += 1;
            return None;
        }
        match unary(op, t, a) {
            Ok(n) => {
                self.store.push(n);
                self.at += 1;
                None
            }
            Err(why) => Some(Outcome::Trapped(trap_of(why), line)),
        }
    }
}
