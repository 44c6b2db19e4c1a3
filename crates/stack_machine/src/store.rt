//! One store of the cells and operands of all calls.

ghost use Rattle.std.specs.Prelude.{◌≡◌, ◌+◌, ◌<◌, ◌≤◌, ◌∷◌, [], pos, length, drop, replicate, slice_get, slice_set, Some, IfOk};
ghost use Rattle.int_ops.specs.Ranges.{IsNumber};
ghost use Rattle.stack_machine.specs.Store.{taken, begun, ended, nothing_in};

use cov_base::NoMemory;
use std::alloc::Global;
use std::marker::Model;

/// The numbers of all calls, in a room that was taken before. Those of the innermost call come
/// last: from `base` on its cells, from `floor` on its operands.
#[derive(Drop)]
pub(crate) struct Store {
    numbers: Vec<i128>,
    base: usize,
    floor: usize,
    room: usize,
}

impl Model for Store {
    ghost use Rattle.std.specs.Prelude.{◌≤◌, ◌-◌, take, drop, reverse, vec_len, vec_capacity, All};
    ghost use Rattle.int_ops.specs.Ranges.{IsNumber};
    ghost use Rattle.stack_machine.specs.Store.{StoreValue};

    ghost Value = { StoreValue };

    ghost view = { λ s. record {
      below = take s.base s.numbers.items;
      cells = take (s.floor - s.base) (drop s.base s.numbers.items);
      operands = reverse (drop s.floor s.numbers.items);
      room = s.room;
    } };

    ghost invariant = { λ s. (s.base ≤ s.floor) × (s.floor ≤ vec_len s.numbers)
        × (vec_len s.numbers ≤ s.room) × (s.room ≤ vec_capacity s.numbers)
        × All IsNumber s.numbers.items };
}

impl Store {
    /// No numbers, with room for so many.
    pub(crate) fn with_room(alloc: Global, room: usize) -> Result<Store, NoMemory>
        ensures { IfOk result (λ s. s ≡ nothing_in room) }
    {
        Ok(Store {
            numbers: Vec::with_capacity(alloc, room)?,
            base: 0,
            floor: 0,
            room,
        })
    }

    /// No numbers, and room for none.
    pub(crate) fn empty(alloc: Global) -> Store
        ensures { result ≡ nothing_in 0 }
    {
        Store {
            numbers: Vec::new(alloc),
            base: 0,
            floor: 0,
            room: 0,
        }
    }

    /// Forgets all numbers. The room stays.
    pub(crate) fn clear(&mut self)
        ensures { self.new ≡ nothing_in self.old.room }
    {
        self.numbers.clear();
        self.base = 0;
        self.floor = 0;
    }

    /// Puts a number on top.
    #[inline(always)]
    pub(crate) fn push(&mut self, n: i128)
        requires room { taken self.old < self.old.room }
        requires number { IsNumber n }
        ensures { self.new ≡ record self.old { operands = n ∷ self.old.operands } }
    {
        self.numbers.push_reserved(n);
    }

    /// Takes the number at the top.
    #[inline(always)]
    pub(crate) fn pop(&mut self) -> i128
        requires { 0 < length self.old.operands }
        ensures popped { self.old ≡ record self.new { operands = result ∷ self.new.operands } }
        ensures number { IsNumber result }
        ensures room { taken self.new < self.new.room }
    {
        self.numbers.pop().unwrap()
    }

    /// The number at the top.
    #[inline(always)]
    pub(crate) fn top(&self) -> i128
        requires { 0 < length self.now.operands }
        ensures value { self.now.operands ≡ result ∷ drop 1 self.now.operands }
        ensures number { IsNumber result }
    {
        self.numbers[self.numbers.len() - 1]
    }

    /// The number of a cell.
    #[inline(always)]
    pub(crate) fn load(&self, w: usize) -> i128
        requires { w < length self.now.cells }
        ensures value { slice_get self.now.cells w ≡ Some result }
        ensures number { IsNumber result }
    {
        self.numbers[self.base + w]
    }

    /// Sets a cell.
    #[inline(always)]
    pub(crate) fn store(&mut self, w: usize, n: i128)
        requires cell { w < length self.old.cells }
        requires number { IsNumber n }
        ensures { self.new ≡ record self.old { cells = slice_set self.old.cells w n } }
    {
        self.numbers[self.base + w] = n;
    }

    /// A call begins: its arguments, at the top, are its first cells, and the other cells are 0.
    #[inline(always)]
    pub(crate) fn begin(&mut self, params: u32, cells: u32)
        requires params { params ≤ length self.old.operands }
        requires cells { params ≤ cells }
        requires room { taken self.old + cells ≤ self.old.room + params }
        ensures { self.new ≡ begun params cells self.old }
    {
        self.base = self.numbers.len() - params as usize;
        for _ in params..cells {
            self.numbers.push_reserved(0);
        }
        self.floor = self.numbers.len();
    }

    /// Where the cells of the innermost call begin, and its operands.
    #[inline(always)]
    pub(crate) fn place(&self) -> (usize, usize)
        ensures { (result.0 ≡ length self.now.below)
            × (result.1 ≡ length self.now.below + length self.now.cells) }
    {
        (self.base, self.floor)
    }

    /// A call ends, and the one before it, which stood in this place, is the innermost.
    #[inline(always)]
    pub(crate) fn end(&mut self, place: (usize, usize))
        requires inner { place.0 ≤ place.1 }
        requires below { place.1 ≤ length self.old.below }
        ensures ended { self.new ≡ ended place.0 place.1 self.old }
        ensures within { taken self.new ≡ length self.old.below }
    {
        self.numbers.truncate(self.base);
        self.base = place.0;
        self.floor = place.1;
    }
}
