//! The operations on operands alone.

ghost use Rattle.std.specs.Prelude.{◌≡◌, ◌<◌, ◌≤◌, ◌^◌, length};
ghost use Rattle.int_ops.specs.Ranges.{IsNumber};
ghost use Rattle.stack_ops.specs.declared.operation.Op.TheVariants as op;
ghost use Rattle.stack_machine.specs.Store.{taken};
ghost use Rattle.stack_machine.specs.Points.{Acts, Stays};

use crate::quick::converted;
use crate::run::Run;
use int_ops::IntType;
use stack_ops::Outcome;

impl Run {
    /// Gives a number.
    #[inline(always)]
    pub(crate) fn push(&mut self, n: i128) -> Option<Outcome>
        requires room { taken self.old.store < self.old.store.room }
        requires number { IsNumber n }
        requires at { self.old.at < 2 ^ 32 }
        ensures effect { Acts (op.Push n) self.old result self.new }
        ensures stays { Stays self.old self.new }
    {
        self.store.push(n);
        self.at += 1;
        None
    }

    /// Gives the top once more.
    #[inline(always)]
    pub(crate) fn dup(&mut self) -> Option<Outcome>
        requires operands { 1 ≤ length self.old.store.operands }
        requires room { taken self.old.store < self.old.store.room }
        requires at { self.old.at < 2 ^ 32 }
        ensures effect { Acts op.Dup self.old result self.new }
        ensures stays { Stays self.old self.new }
    {
        let n = self.store.top();
        self.store.push(n);
        self.at += 1;
        None
    }

    /// Takes the top away.
    #[inline(always)]
    pub(crate) fn drop_top(&mut self) -> Option<Outcome>
        requires operands { 1 ≤ length self.old.store.operands }
        requires at { self.old.at < 2 ^ 32 }
        ensures effect { Acts op.Drop self.old result self.new }
        ensures stays { Stays self.old self.new }
    {
        self.store.pop();
        self.at += 1;
        None
    }

    /// Exchanges the two numbers at the top.
    #[inline(always)]
    pub(crate) fn swap(&mut self) -> Option<Outcome>
        requires operands { 2 ≤ length self.old.store.operands }
        requires at { self.old.at < 2 ^ 32 }
        ensures effect { Acts op.Swap self.old result self.new }
        ensures stays { Stays self.old self.new }
    {
        let b = self.store.pop();
        let a = self.store.pop();
        self.store.push(b);
        self.store.push(a);
        self.at += 1;
        None
    }

    /// Gives the number below the top once more.
    #[inline(always)]
    pub(crate) fn over(&mut self) -> Option<Outcome>
        requires operands { 2 ≤ length self.old.store.operands }
        requires room { taken self.old.store < self.old.store.room }
        requires at { self.old.at < 2 ^ 32 }
        ensures effect { Acts op.Over self.old result self.new }
        ensures stays { Stays self.old self.new }
    {
        let b = self.store.pop();
        let a = self.store.top();
        self.store.push(b);
        self.store.push(a);
        self.at += 1;
        None
    }

    /// Converts the top to the type.
    #[inline(always)]
    pub(crate) fn convert_top(&mut self, t: IntType) -> Option<Outcome>
        requires operands { 1 ≤ length self.old.store.operands }
        requires at { self.old.at < 2 ^ 32 }
        ensures effect { Acts (op.Convert t) self.old result self.new }
        ensures stays { Stays self.old self.new }
    {
        let a = self.store.pop();
        self.store.push(converted(t, a));
        self.at += 1;
        None
    }

    /// Makes 1 of 0, and 0 of every other number.
    #[inline(always)]
    pub(crate) fn not(&mut self) -> Option<Outcome>
        requires operands { 1 ≤ length self.old.store.operands }
        requires at { self.old.at < 2 ^ 32 }
        ensures effect { Acts op.Not self.old result self.new }
        ensures stays { Stays self.old self.new }
    {
        let a = self.store.pop();
        self.store.push(if a == 0 { 1 } else { 0 });
        self.at += 1;
        None
    }
}
