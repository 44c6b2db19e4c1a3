//! The globals of a run.

ghost use Rattle.std.specs.Prelude.{◌≡◌, ◌<◌, length, slice_get, slice_set, Some, All, IfOk};
ghost use Rattle.int_ops.specs.Ranges.{IsNumber};

use cov_base::NoMemory;
use std::alloc::Global;
use std::marker::Model;

/// The cells of the globals.
#[derive(Drop)]
pub(crate) struct Globals {
    numbers: Vec<i128>,
}

impl Model for Globals {
    ghost use Rattle.std.specs.Prelude.{List, ℤ, All};
    ghost use Rattle.int_ops.specs.Ranges.{IsNumber};

    ghost Value = { List ℤ };

    ghost view = { λ s. s.numbers.items };

    ghost invariant = { λ s. All IsNumber s.numbers.items };
}

impl Globals {
    /// Globals with these numbers.
    pub(crate) fn new(alloc: Global, numbers: &[i128]) -> Result<Globals, NoMemory>
        requires { All IsNumber numbers.now }
        ensures { IfOk result (λ s. s ≡ numbers.now) }
    {
        Ok(Globals {
            numbers: Vec::from_slice(alloc, numbers)?,
        })
    }

    /// No globals.
    pub(crate) fn empty(alloc: Global) -> Globals {
        Globals {
            numbers: Vec::new(alloc),
        }
    }

    /// Sets all of them.
    pub(crate) fn set(&mut self, numbers: &[i128])
        requires long { length self.old ≡ length numbers.now }
        requires numbers { All IsNumber numbers.now }
        ensures { self.new ≡ numbers.now }
    {
        self.numbers.copy_from_slice(numbers);
    }

    /// The number of a cell.
    #[inline(always)]
    pub(crate) fn load(&self, w: usize) -> i128
        requires { w < length self.now }
        ensures value { slice_get self.now w ≡ Some result }
        ensures number { IsNumber result }
    {
        self.numbers[w]
    }

    /// Sets a cell.
    #[inline(always)]
    pub(crate) fn store(&mut self, w: usize, n: i128)
        requires cell { w < length self.old }
        requires number { IsNumber n }
        ensures { self.new ≡ slice_set self.old w n }
    {
        self.numbers[w] = n;
    }
}
