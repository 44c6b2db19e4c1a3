//! New numbers of the blocks that are kept.

ghost use Rattle.std.specs.Prelude.{◌≡◌, ◌++◌, ◌<◌, ◌^◌, map, length, get_or, false, slice_get};
ghost use Rattle.std.specs.Prelude.{IfOk, OnOk};
ghost use Rattle.flow_graph.specs.GraphView.{ending_view};
ghost use Rattle.flow_graph.specs.Nets.{renamed};
ghost use Rattle.fake_arcs.specs.Numbers.{number_by, number_behind, kept_by, kept_here};

use flow_graph::{Block, Ending};
use std::alloc::{AllocError, Global};
use std::marker::Model;

/// The new numbers of marked blocks.
#[derive(Drop)]
pub struct Numbers {
    marks: Vec<bool>,
    numbers: Vec<u32>,
    next: u32,
}

impl Model for Numbers {
    ghost use Rattle.std.specs.Prelude.{List, Bool};
    ghost use Rattle.fake_arcs.specs.Numbers.{AreNumbers};

    ghost Value = { List Bool };

    ghost view = { λ n. n.marks.items };

    ghost invariant = { λ n. AreNumbers n.marks.items n.numbers.items n.next };
}

impl Numbers {
    /// The numbers of the blocks with a mark, in order from 2 on.
    pub fn of(alloc: Global, marks: Vec<bool>) -> Result<Numbers, AllocError>
        requires { number_behind 2 marks.items < 2 ^ 32 }
        ensures { IfOk result (λ n. n ≡ marks.items) }
    {
        let mut numbers = Vec::new(alloc);
        let mut next = 2;
        for mark in &marks {
            numbers.push(next)?;
            if *mark {
                next += 1;
            }
        }
        Ok(Numbers {
            marks,
            numbers,
            next,
        })
    }

    /// The marks.
    pub fn marks(&self) -> &[bool]
        ensures { result.now ≡ self.now }
    {
        &self.marks
    }

    fn number(&self, target: u32) -> u32
        ensures { result ≡ number_by self.now target }
    {
        let marks = self.marks.as_slice();
        let numbers = self.numbers.as_slice();
        if target < 2 {
            return target;
        }
        let place = (target - 2) as usize;
        if place >= marks.len() {
            return self.next;
        }
        if !marks[place] {
            return self.next;
        }
        numbers[place]
    }

    /// The ending in the new numbers.
    pub fn rename(&self, alloc: Global, end: &Ending) -> Result<Ending, AllocError>
        ensures { IfOk result
            (λ e. ending_view e ≡ renamed (number_by self.now) (ending_view end.now)) }
    {
        match end {
            Ending::Jump(target) => Ok(Ending::Jump(self.number(*target))),
            Ending::Back(target) => Ok(Ending::Back(self.number(*target))),
            Ending::Branch(one, other) => Ok(Ending::Branch(
                self.number(*one),
                self.number(*other),
            )),
            Ending::Switch(cases, default) => {
                let cases = self.rename_cases(alloc, cases)?;
                Ok(Ending::Switch(cases, self.number(*default)))
            }
            Ending::Call(function, line, next) => Ok(Ending::Call(
                *function,
                *line,
                self.number(*next),
            )),
            Ending::Return => Ok(Ending::Return),
            Ending::Exit => Ok(Ending::Exit),
        }
    }

    fn rename_cases(
        &self,
        alloc: Global,
        cases: &[(i128, u32)],
    ) -> Result<Vec<(i128, u32)>, AllocError>
        ensures { IfOk result
            (λ v. v.items ≡ map (λ c. (c.0, number_by self.now c.1)) cases.now) }
    {
        let mut renamed = Vec::new(alloc);
        for case in cases {
            renamed.push((case.0, self.number(case.1)))?;
        }
        Ok(renamed)
    }

    fn keep(&self, alloc: Global, block: &Block) -> Result<Block, AllocError>
        ensures { IfOk result
            (λ b. b ≡ record block.now { end = renamed (number_by self.now) block.now.end }) }
    {
        Ok(Block {
            ops: Vec::from_slice(alloc, &block.ops)?,
            end: self.rename(alloc, &block.end)?,
            lines: Vec::from_slice(alloc, &block.lines)?,
        })
    }

    fn keep_at(
        &self,
        alloc: Global,
        place: usize,
        blocks: &[Block],
        kept: &mut Vec<Block>,
    ) -> Result<(), AllocError>
        requires len { length self.now ≡ length blocks.now }
        requires within { place < length blocks.now }
        ensures { OnOk result (kept.new.items ≡ kept.old.items ++ kept_here
            (number_by self.now) (get_or self.now place false) (slice_get blocks.now place)) }
    {
        let marks = self.marks.as_slice();
        if !marks[place] {
            return Ok(());
        }
        let block = &blocks[place];
        kept.push(self.keep(alloc, block)?)?;
        Ok(())
    }

    /// The marked blocks, in the new numbers.
    pub fn keep_all(&self, alloc: Global, blocks: &[Block]) -> Result<Vec<Block>, AllocError>
        requires { length self.now ≡ length blocks.now }
        ensures { IfOk result
            (λ v. v.items ≡ kept_by (number_by self.now) self.now blocks.now) }
    {
        let mut kept = Vec::new(alloc);
        for place in 0..blocks.len() {
            self.keep_at(alloc, place, blocks, &mut kept)?;
        }
        Ok(kept)
    }
}
