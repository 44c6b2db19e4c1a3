//! The operations on cells of the innermost call, and on globals.

ghost use Rattle.std.specs.Prelude.{◌≡◌, ◌+◌, ◌<◌, ◌≤◌, ◌^◌, length, IfSome};
ghost use Rattle.stack_ops.specs.declared.operation.Op.TheVariants as op;
ghost use Rattle.stack_ops.specs.Effect.{element};
ghost use Rattle.stack_machine.specs.Store.{taken};
ghost use Rattle.stack_machine.specs.Points.{Acts, Stays};

use crate::run::Run;
use stack_ops::{Outcome, Trap};

/// The cell of an element, where the index is one of its array.
#[inline(always)]
fn cell_of(base: u32, size: u32, index: i128) -> Option<usize>
    ensures cell { result ≡ element base size index }
    ensures within { IfSome result (λ w. w < base + size) }
{
    let Ok(element) = u32::try_from(index) else {
        return None;
    };
    if element >= size {
        return None;
    }
    Some(base as usize + element as usize)
}

impl Run {
    /// Gives a cell.
    #[inline(always)]
    pub(crate) fn load_local(&mut self, w: u32) -> Option<Outcome>
        requires cell { w < length self.old.store.cells }
        requires room { taken self.old.store < self.old.store.room }
        requires at { self.old.at < 2 ^ 32 }
        ensures effect { Acts (op.LoadLocal w) self.old result self.new }
        ensures stays { Stays self.old self.new }
    {
        let n = self.store.load(w as usize);
        self.store.push(n);
        self.at += 1;
        None
    }

    /// Sets a cell to the top, which stays.
    #[inline(always)]
    pub(crate) fn store_local(&mut self, w: u32) -> Option<Outcome>
        requires operands { 1 ≤ length self.old.store.operands }
        requires cell { w < length self.old.store.cells }
        requires at { self.old.at < 2 ^ 32 }
        ensures effect { Acts (op.StoreLocal w) self.old result self.new }
        ensures stays { Stays self.old self.new }
    {
        let n = self.store.top();
        self.store.store(w as usize, n);
        self.at += 1;
        None
    }

    /// Gives a global.
    #[inline(always)]
    pub(crate) fn load_global(&mut self, w: u32) -> Option<Outcome>
        requires cell { w < length self.old.globals }
        requires room { taken self.old.store < self.old.store.room }
        requires at { self.old.at < 2 ^ 32 }
        ensures effect { Acts (op.LoadGlobal w) self.old result self.new }
        ensures stays { Stays self.old self.new }
    {
        let n = self.globals.load(w as usize);
        self.store.push(n);
        self.at += 1;
        None
    }

    /// Sets a global to the top, which stays.
    #[inline(always)]
    pub(crate) fn store_global(&mut self, w: u32) -> Option<Outcome>
        requires operands { 1 ≤ length self.old.store.operands }
        requires cell { w < length self.old.globals }
        requires at { self.old.at < 2 ^ 32 }
        ensures effect { Acts (op.StoreGlobal w) self.old result self.new }
        ensures stays { Stays self.old self.new }
    {
        let n = self.store.top();
        self.globals.store(w as usize, n);
        self.at += 1;
        None
    }

    /// Leaves an index that is one of the array's.
    #[inline(always)]
    pub(crate) fn check_index(&mut self, size: u32, line: u32) -> Option<Outcome>
        requires operands { 1 ≤ length self.old.store.operands }
        requires at { self.old.at < 2 ^ 32 }
        ensures effect { Acts (op.CheckIndex size line) self.old result self.new }
        ensures stays { Stays self.old self.new }
    {
        let i = self.store.top();
        let Some(_) = cell_of(0, size, i) else {
            return Some(Outcome::Trapped(Trap::BadIndex, line));
        };
        self.at += 1;
        None
    }

    /// Takes an index and gives its element of an array among the cells.
    #[inline(always)]
    pub(crate) fn load_local_at(&mut self, base: u32, size: u32) -> Option<Outcome>
        requires operands { 1 ≤ length self.old.store.operands }
        requires cell { base + size ≤ length self.old.store.cells }
        requires at { self.old.at < 2 ^ 32 }
        ensures effect { Acts (op.LoadLocalAt base size) self.old result self.new }
        ensures stays { Stays self.old self.new }
    {
        let i = self.store.pop();
        let Some(w) = cell_of(base, size, i) else {
            return Some(Outcome::Trapped(Trap::BadIndex, 0));
        };
        let n = self.store.load(w);
        self.store.push(n);
        self.at += 1;
        None
    }

    /// Takes an index and a number, sets the element, and gives the number.
    #[inline(always)]
    pub(crate) fn store_local_at(&mut self, base: u32, size: u32) -> Option<Outcome>
        requires operands { 2 ≤ length self.old.store.operands }
        requires cell { base + size ≤ length self.old.store.cells }
        requires at { self.old.at < 2 ^ 32 }
        ensures effect { Acts (op.StoreLocalAt base size) self.old result self.new }
        ensures stays { Stays self.old self.new }
    {
        let a = self.store.pop();
        let i = self.store.pop();
        let Some(w) = cell_of(base, size, i) else {
            return Some(Outcome::Trapped(Trap::BadIndex, 0));
        };
        self.store.store(w, a);
        self.store.push(a);
        self.at += 1;
        None
    }

    /// Takes an index and gives its element of an array among the globals.
    #[inline(always)]
    pub(crate) fn load_global_at(&mut self, base: u32, size: u32) -> Option<Outcome>
        requires operands { 1 ≤ length self.old.store.operands }
        requires cell { base + size ≤ length self.old.globals }
        requires at { self.old.at < 2 ^ 32 }
        ensures effect { Acts (op.LoadGlobalAt base size) self.old result self.new }
        ensures stays { Stays self.old self.new }
    {
        let i = self.store.pop();
        let Some(w) = cell_of(base, size, i) else {
            return Some(Outcome::Trapped(Trap::BadIndex, 0));
        };
        let n = self.globals.load(w);
        self.store.push(n);
        self.at += 1;
        None
    }

    /// Takes an index and a number, sets the element, and gives the number.
    #[inline(always)]
    pub(crate) fn store_global_at(&mut self, base: u32, size: u32) -> Option<Outcome>
        requires operands { 2 ≤ length self.old.store.operands }
        requires cell { base + size ≤ length self.old.globals }
        requires at { self.old.at < 2 ^ 32 }
        ensures effect { Acts (op.StoreGlobalAt base size) self.old result self.new }
        ensures stays { Stays self.old self.new }
    {
        let a = self.store.pop();
        let i = self.store.pop();
        let Some(w) = cell_of(base, size, i) else {
            return Some(Outcome::Trapped(Trap::BadIndex, 0));
        };
        self.globals.store(w, a);
        self.store.push(a);
        self.at += 1;
        None
    }
}
