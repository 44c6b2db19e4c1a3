//! Blocks in the making: items are put behind one another, and each names a block, an operation or
//! an ending.

ghost use Rattle.std.specs.Prelude.{◌≡◌, Bool, List, [], ◌∷◌, ◌++◌, true, false, cond, Option, Some, None, OnOk, IfOk, pos};
ghost use Rattle.stack_ops.specs.declared.operation.Op.TheVariants as op;
ghost use Rattle.c_lower.specs.Lowered as lowered;
ghost use Rattle.c_lower.specs.Lowered.{opened};
ghost use Rattle.c_lower.specs.Items.{Item};
ghost use Rattle.c_lower.specs.Items as items;
ghost use Rattle.c_lower.specs.CloseView.{close_view};
ghost use Rattle.c_lower.specs.Building.{Puts, made, no_blocks, after, open_with, close_with, ready, with_op_of, with_line_of, ends_shut, jumped, appended};
ghost use Rattle.c_lower.specs.Tables.{default_or};

use crate::named::{Close, Label, NamedBlock};
use crate::tables::Table;
use flow_graph::lines::Lines;
use stack_ops::Op;
use std::alloc::{AllocError, Global};
use std::marker::Model;
use std::mem;

/// Blocks that have ended, and one that may be open.
#[derive(Debug, Drop)]
pub struct Blocks {
    alloc: Global,
    done: Vec<NamedBlock>,
    is_open: bool,
    name: Option<Label>,
    ops: Vec<Op>,
    lines: Lines,
}

impl Model for Blocks {
    ghost use Rattle.c_lower.specs.Building.{Making};

    ghost Value = { Making };

    ghost view = { λ b. record {
      done = b.done.items;
      is_open = b.is_open;
      name = b.name;
      ops = b.ops.items;
      lines = b.lines;
    } };
}

impl Blocks {
    /// No blocks; none is open.
    pub fn new(alloc: Global) -> Blocks
        ensures { result ≡ no_blocks }
    {
        Blocks {
            alloc,
            done: Vec::new(alloc),
            is_open: false,
            name: None,
            ops: Vec::new(alloc),
            lines: Lines::new(alloc),
        }
    }

    fn begun_exactly(alloc: Global, line: u32) -> Result<Blocks, AllocError>
        ensures { IfOk result (λ b. b ≡ with_line_of (Some line) (open_with None no_blocks)) }
    {
        let mut blocks = Blocks::new(alloc);
        blocks.open(None);
        blocks.note(Some(line))?;
        Ok(blocks)
    }

    /// The first block of a function, which has the line of its name.
    #[tactic(auto, using(crate::proofs::EndLaws::made_first))]
    pub fn begun(alloc: Global, line: u32) -> Result<Blocks, AllocError>
        ensures { IfOk result (λ b. (gives : Bool) (is : List Item) → made gives b is
            ≡ lowered.begun None (Some line) (opened gives is)) }
    {
        Blocks::begun_exactly(alloc, line)
    }

    /// A table without labels.
    pub fn no_table(&self) -> Table
        ensures { result ≡ record { cases = []; default = None } }
    {
        Table::new(self.alloc)
    }

    /// Blocks of their own, beside these; none is open.
    pub fn apart(&self) -> Blocks
        ensures { result ≡ no_blocks }
    {
        Blocks::new(self.alloc)
    }

    fn open(&mut self, name: Option<Label>)
        ensures { self.new ≡ open_with name self.old }
    {
        self.is_open = true;
        self.name = name;
        self.ops = Vec::new(self.alloc);
        self.lines = Lines::new(self.alloc);
    }

    fn close(&mut self, close: Close) -> Result<(), AllocError>
        ensures { OnOk result (self.new ≡ close_with (close_view close) self.old) }
    {
        let ops = mem::replace(&mut self.ops, Vec::new(self.alloc));
        let lines = mem::replace(&mut self.lines, Lines::new(self.alloc));
        self.done.push(NamedBlock {
            name: self.name,
            ops,
            close,
            lines,
        })?;
        self.is_open = false;
        self.name = None;
        Ok(())
    }

    fn note(&mut self, line: Option<u32>) -> Result<(), AllocError>
        ensures { OnOk result (self.new ≡ with_line_of line self.old) }
    {
        match line {
            Some(line) => self.lines.add(line),
            None => Ok(()),
        }
    }

    fn make_ready(&mut self)
        ensures { self.new ≡ ready self.old }
    {
        if !self.is_open {
            self.open(None);
        }
    }

    fn jump(&mut self, label: Label) -> Result<(), AllocError>
        ensures { OnOk result (self.new ≡ jumped label self.old) }
    {
        if self.is_open {
            self.close(Close::Jump(label))?;
        }
        Ok(())
    }

    fn begin_exactly(&mut self, label: Label, line: Option<u32>) -> Result<(), AllocError>
        ensures { OnOk result (self.new ≡ after (Item.Begin label line) self.old) }
    {
        self.jump(label)?;
        self.open(Some(label));
        self.note(line)
    }

    fn put_exactly(&mut self, op: Op, line: Option<u32>) -> Result<(), AllocError>
        ensures { OnOk result (self.new ≡ after (Item.Do op line) self.old) }
    {
        self.make_ready();
        self.ops.push(op)?;
        self.note(line)
    }

    fn end_shut(&mut self, close: Close, line: Option<u32>) -> Result<(), AllocError>
        ensures { OnOk result (self.new ≡ ends_shut (close_view close) line self.old) }
    {
        match close {
            Close::Jump(_) | Close::Back(_) => Ok(()),
            close => {
                self.open(None);
                self.note(line)?;
                self.close(close)
            }
        }
    }

    fn end_exactly(&mut self, close: Close, line: Option<u32>) -> Result<(), AllocError>
        ensures { OnOk result (self.new ≡ after (Item.End (close_view close) line) self.old) }
    {
        if self.is_open {
            self.note(line)?;
            return self.close(close);
        }
        self.end_shut(close, line)
    }

    fn append_exactly(&mut self, more: Blocks) -> Result<(), AllocError>
        ensures { OnOk result (self.new ≡ appended self.old more) }
    {
        let Blocks {
            mut done,
            is_open,
            name,
            ops,
            lines,
            ..
        } = more;
        self.done.append(&mut done)?;
        self.is_open = is_open;
        self.name = name;
        self.ops = ops;
        self.lines = lines;
        Ok(())
    }

    fn select_exactly(&mut self, table: Table, end: Label, arms: Blocks) -> Result<(), AllocError>
        ensures { OnOk result (self.new ≡ appended (after (Item.End (items.Close.Select table.cases
            (default_or table.default end)) None) self.old) arms) }
    {
        self.end_exactly(table.into_close(end), None)?;
        self.append_exactly(arms)
    }

    /// A block begins. One that is still open jumps to it.
    #[tactic(auto, using(crate::proofs::MadeLaws::puts_item))]
    pub fn begin(&mut self, label: Label, line: Option<u32>) -> Result<(), AllocError>
        ensures { OnOk result (Puts self.old self.new (λ rest. Item.Begin label line ∷ rest)) }
    {
        self.begin_exactly(label, line)
    }

    /// An operation. Behind a closed block it begins one that nothing enters.
    #[tactic(auto, using(crate::proofs::MadeLaws::puts_item))]
    pub fn put(&mut self, op: Op, line: Option<u32>) -> Result<(), AllocError>
        ensures { OnOk result (Puts self.old self.new (λ rest. Item.Do op line ∷ rest)) }
    {
        self.put_exactly(op, line)
    }

    /// A block ends. Behind a closed block a jump is left out, with its line.
    #[tactic(auto, using(crate::proofs::MadeLaws::puts_item))]
    pub fn end(&mut self, close: Close, line: Option<u32>) -> Result<(), AllocError>
        ensures { OnOk result (Puts self.old self.new
            (λ rest. Item.End (close_view close) line ∷ rest)) }
    {
        self.end_exactly(close, line)
    }

    /// The ending that selects by a table, and behind it the blocks of the labels and items, which
    /// were made apart.
    #[tactic(auto, using(crate::proofs::MadeLaws::puts_select))]
    pub fn select(&mut self, table: Table, end: Label, arms: Blocks) -> Result<(), AllocError>
        ensures { OnOk result ((row : List Item → List Item) → Puts no_blocks arms row
            → Puts self.old self.new (λ rest. Item.End (items.Close.Select table.cases
            (default_or table.default end)) None ∷ row rest)) }
    {
        self.select_exactly(table, end, arms)
    }

    fn give_zero(&mut self, gives: bool) -> Result<(), AllocError>
        ensures { OnOk result (self.new ≡ cond gives
            (after (Item.Do (op.Push (pos 0)) None) self.old) self.old) }
    {
        if gives {
            self.put_exactly(Op::Push(0), None)?;
        }
        Ok(())
    }

    fn end_exactly_open(&mut self, gives: bool) -> Result<(), AllocError>
        ensures { OnOk result (self.new ≡ close_with items.Close.Leave (cond gives
            (after (Item.Do (op.Push (pos 0)) None) self.old) self.old)) }
    {
        self.give_zero(gives)?;
        self.close(Close::Leave)
    }

    /// All blocks. One that is still open ends the function; it gives 0 where the function gives a
    /// number.
    #[tactic(auto, using(crate::proofs::EndLaws::made_open, crate::proofs::EndLaws::made_shut))]
    pub fn finish(self, gives: bool) -> Result<Vec<NamedBlock>, AllocError>
        ensures { IfOk result (λ v. v.items ≡ made gives self []) }
    {
        let mut blocks = self;
        if blocks.is_open {
            blocks.end_exactly_open(gives)?;
        }
        Ok(blocks.done)
    }
}
