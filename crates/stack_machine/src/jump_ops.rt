//! The operations that go elsewhere in a function.

ghost use Rattle.std.specs.Prelude.{◌≡◌, ◌<◌, ◌≤◌, ◌^◌, length};
ghost use Rattle.stack_ops.specs.declared.operation.Op.TheVariants as op;
ghost use Rattle.stack_machine.specs.Points.{Acts, Stays};

use crate::run::Run;
use stack_ops::Outcome;

impl Run {
    /// Goes to an instruction.
    #[inline(always)]
    pub(crate) fn jump(&mut self, w: u32) -> Option<Outcome>
        ensures effect { Acts (op.Jump w) self.old result self.new }
        ensures stays { Stays self.old self.new }
    {
        self.at = w as usize;
        None
    }

    /// Takes a turn and goes back.
    #[inline(always)]
    pub(crate) fn back(&mut self, w: u32) -> Option<Outcome>
        ensures effect { Acts (op.Back w) self.old result self.new }
        ensures stays { Stays self.old self.new }
    {
        if self.turns == 0 {
            return Some(Outcome::OutOfTurns);
        }
        self.turns -= 1;
        self.at = w as usize;
        None
    }

    /// Takes a number and goes where it is 0.
    #[inline(always)]
    pub(crate) fn if_zero(&mut self, w: u32) -> Option<Outcome>
        requires operands { 1 ≤ length self.old.store.operands }
        requires at { self.old.at < 2 ^ 32 }
        ensures effect { Acts (op.IfZero w) self.old result self.new }
        ensures stays { Stays self.old self.new }
    {
        if self.store.pop() == 0 {
            self.at = w as usize;
        } else {
            self.at += 1;
        }
        None
    }

    /// Takes a number and goes where it isn't 0.
    #[inline(always)]
    pub(crate) fn if_not(&mut self, w: u32) -> Option<Outcome>
        requires operands { 1 ≤ length self.old.store.operands }
        requires at { self.old.at < 2 ^ 32 }
        ensures effect { Acts (op.IfNot w) self.old result self.new }
        ensures stays { Stays self.old self.new }
    {
        if self.store.pop() == 0 {
            self.at += 1;
        } else {
            self.at = w as usize;
        }
        None
    }

    /// Takes the top and goes where it is the number.
    #[inline(always)]
    pub(crate) fn case_jump(&mut self, n: i128, w: u32) -> Option<Outcome>
        requires operands { 1 ≤ length self.old.store.operands }
        requires at { self.old.at < 2 ^ 32 }
        ensures effect { Acts (op.CaseJump n w) self.old result self.new }
        ensures stays { Stays self.old self.new }
    {
        if n == self.store.top() {
            self.store.pop();
            self.at = w as usize;
        } else {
            self.at += 1;
        }
        None
    }
}
