//! The operands.

ghost use Rattle.std.specs.Prelude.{◌≡◌, ◌+◌, ◌<◌, ◌≤◌, ℤ, List, [], ◌∷◌, ◌++◌, length, drop, All, IfOk};
ghost use Rattle.int_ops.specs.Ranges.{IsNumber};
ghost use Rattle.stack_ops.specs.Stack.{operands};

use cov_base::NoMemory;
use std::alloc::Global;
use std::marker::Model;

/// A list of numbers within a room that was taken before, so that adding one can't fail.
#[derive(Drop)]
pub struct OpStack {
    items: Vec<i128>,
    room: u32,
}

impl Model for OpStack {
    ghost use Rattle.std.specs.Prelude.{◌≤◌, vec_len, vec_capacity};
    ghost use Rattle.stack_ops.specs.Stack.{StackValue};

    ghost Value = { StackValue };

    ghost view = { λ s. record { numbers = s.items.items; room = s.room } };

    ghost invariant = { λ s. (vec_len s.items ≤ s.room) × (s.room ≤ vec_capacity s.items) };
}

impl OpStack {
    /// No numbers, with room for n.
    pub fn with_room(alloc: Global, n: u32) -> Result<OpStack, NoMemory>
        ensures { IfOk result (λ stack. stack ≡ record { numbers = []; room = n }) }
    {
        Ok(OpStack {
            items: Vec::with_capacity(alloc, n as usize)?,
            room: n,
        })
    }

    /// The numbers, the first pushed first.
    pub fn numbers(&self) -> &[i128]
        ensures value { result.now ≡ self.now.numbers }
        ensures within { length self.now.numbers ≤ self.now.room }
    {
        &self.items
    }

    pub fn push(&mut self, n: i128)
        requires { length self.old.numbers < self.old.room }
        ensures pushed { self.new ≡ record self.old { numbers = self.old.numbers ++ n ∷ [] } }
        ensures top { operands self.new ≡ n ∷ operands self.old }
        ensures numbers { All IsNumber self.old.numbers → IsNumber n
            → All IsNumber self.new.numbers }
    {
        self.items.push_reserved(n);
    }

    pub fn pop(&mut self) -> i128
        requires { 0 < length self.old.numbers }
        ensures popped { self.old ≡ record self.new { numbers = self.new.numbers ++ result ∷ [] } }
        ensures room { length self.new.numbers < self.new.room }
        ensures top { operands self.old ≡ result ∷ operands self.new }
        ensures numbers { All IsNumber self.old.numbers
            → IsNumber result × All IsNumber self.new.numbers }
    {
        self.items.pop().unwrap()
    }

    /// The number that was pushed last.
    pub(crate) fn top(&self) -> i128
        requires { 0 < length self.now.numbers }
        ensures top { operands self.now ≡ result ∷ drop 1 (operands self.now) }
        ensures number { All IsNumber self.now.numbers → IsNumber result }
    {
        self.items[self.items.len() - 1]
    }
}
