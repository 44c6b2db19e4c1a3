//! The numbers of named blocks.

ghost use Rattle.std.specs.Prelude.{◌≡◌, ◌<◌, ◌++◌, ◌∷◌, cond, length, map, [], ℕ, get_or, slice_set, Some, OnOk, IfOk};
ghost use Rattle.flow_graph.specs.GraphView.{ending_view};
ghost use Rattle.c_lower.specs.Items.{Name};
ghost use Rattle.c_lower.specs.Lowered.{is_name, numbered, block_of, number_from};
ghost use Rattle.c_lower.specs.CloseView.{close_view};
ghost use Rattle.c_lower.specs.Numbers.{number_at, number_in};

use crate::named::{Close, Label, NamedBlock};
use flow_graph::{Block, Ending};
use std::alloc::{AllocError, Global};
use std::marker::Model;

/// The number of a part's block.
#[derive(Clone, Copy, Debug)]
pub struct Entry {
    pub part: u8,
    pub number: u32,
}

/// The numbers of blocks with names, by the nodes of the names.
#[derive(Debug, Drop)]
pub struct Rows {
    alloc: Global,
    rows: Vec<Vec<Entry>>,
}

impl Model for Rows {
    ghost use Rattle.std.specs.Prelude.{List, map};
    ghost use Rattle.c_lower.specs.declared.numbers.Entry.{Entry as Held};

    ghost Value = { List (List Held) };

    ghost view = { λ r. map (λ v. v.items) r.rows.items };
}

impl Rows {
    /// No numbers.
    pub fn new(alloc: Global) -> Rows
        ensures { result ≡ [] }
    {
        Rows {
            alloc,
            rows: Vec::new(alloc),
        }
    }

    fn add_row(&mut self) -> Result<(), AllocError>
        ensures { OnOk result (self.new ≡ self.old ++ [] ∷ []) }
    {
        self.rows.push(Vec::new(self.alloc))?;
        Ok(())
    }

    /// There are rows up to that of the node.
    #[tactic(auto, using(crate::proofs::NumberLaws::same_rows))]
    fn reach(&mut self, node: u32) -> Result<(), AllocError>
        ensures within { OnOk result (node < length self.new) }
        ensures same { OnOk result ((n : ℕ) → get_or self.new n [] ≡ get_or self.old n []) }
    {
        while self.rows.len() <= node as usize {
            self.add_row()?;
        }
        Ok(())
    }

    fn push(&mut self, node: u32, entry: Entry) -> Result<(), AllocError>
        requires { node < length self.old }
        ensures { OnOk result
            (self.new ≡ slice_set self.old node (get_or self.old node [] ++ entry ∷ [])) }
    {
        let row = &mut self.rows[node as usize];
        row.push(entry)?;
        Ok(())
    }

    /// The block of this name has the number, unless the name has one.
    pub fn add(&mut self, name: Label, number: u32) -> Result<(), AllocError>
        ensures { OnOk result ((l : Name) (other : ℕ) → number_at self.new l other
            ≡ number_at self.old l (cond (is_name l (Some name)) number other)) }
    {
        let entry = Entry {
            part: name.part,
            number,
        };
        self.reach(name.node)?;
        self.push(name.node, entry)
    }

    /// The number of a name, or else another number.
    pub fn find(&self, name: Label, other: u32) -> u32
        ensures { result ≡ number_at self.now name other }
    {
        let node = name.node as usize;
        if node < self.rows.len() {
            return find(&self.rows[node], name.part, other);
        }
        other
    }
}

/// The number of a part among the blocks of its node, or else another number.
fn find(row: &[Entry], part: u8, other: u32) -> u32
    ensures { result ≡ number_in row.now part other }
{
    for entry in row {
        if part == entry.part {
            return entry.number;
        }
    }
    other
}

/// The numbers of a function's blocks. A name that no block has stands for the number behind the
/// last one.
#[derive(Debug, Drop)]
struct Numbers {
    rows: Rows,
    behind: u32,
}

fn add_block(rows: &mut Rows, block: &NamedBlock, number: u32) -> Result<(), AllocError>
    ensures { OnOk result ((l : Name) (other : ℕ) → number_at rows.new l other
        ≡ number_at rows.old l (cond (is_name l block.now.name) number other)) }
{
    match block.name {
        Some(name) => rows.add(name, number),
        None => Ok(()),
    }
}

impl Numbers {
    /// The numbers of these blocks, in order from 2 on.
    fn of(alloc: Global, blocks: &[NamedBlock]) -> Result<Numbers, AllocError>
        ensures { IfOk result
            (λ n. (l : Name) → number_at n.rows l n.behind ≡ number_from 2 blocks.now l) }
    {
        let mut rows = Rows::new(alloc);
        let mut number = 2;
        for block in blocks {
            if number == u32::MAX {
                return Err(AllocError);
            }
            add_block(&mut rows, block, number)?;
            number += 1;
        }
        Ok(Numbers {
            rows,
            behind: number,
        })
    }

    fn number(&self, label: Label) -> u32
        ensures { result ≡ number_at self.now.rows label self.now.behind }
    {
        self.rows.find(label, self.behind)
    }

    fn cases(&self, alloc: Global, cases: &[(i128, Label)]) -> Result<Vec<(i128, u32)>, AllocError>
        ensures { IfOk result (λ v. v.items
            ≡ map (λ c. (c.0, number_at self.now.rows c.1 self.now.behind)) cases.now) }
    {
        let mut numbers = Vec::new(alloc);
        for case in cases {
            numbers.push((case.0, self.number(case.1)))?;
        }
        Ok(numbers)
    }

    fn end(&self, alloc: Global, close: &Close) -> Result<Ending, AllocError>
        ensures { IfOk result (λ e. ending_view e
            ≡ numbered (λ l. number_at self.now.rows l self.now.behind) (close_view close.now)) }
    {
        match close {
            Close::Jump(to) => Ok(Ending::Jump(self.number(*to))),
            Close::Back(to) => Ok(Ending::Back(self.number(*to))),
            Close::Branch(one, other) => Ok(Ending::Branch(self.number(*one), self.number(*other))),
            Close::Select(cases, default) => {
                let cases = self.cases(alloc, cases)?;
                Ok(Ending::Switch(cases, self.number(*default)))
            }
            Close::CallTo(function, line, behind) => Ok(Ending::Call(
                *function,
                *line,
                self.number(*behind),
            )),
            Close::Leave => Ok(Ending::Return),
            Close::Quit => Ok(Ending::Exit),
        }
    }

    fn block(&self, alloc: Global, block: NamedBlock) -> Result<Block, AllocError>
        ensures { IfOk result
            (λ b. b ≡ block_of (λ l. number_at self.now.rows l self.now.behind) block) }
    {
        let NamedBlock {
            ops,
            close,
            lines,
            ..
        } = block;
        let end = self.end(alloc, &close)?;
        Ok(Block {
            ops,
            end,
            lines: lines.into_vec(),
        })
    }

    fn blocks(&self, alloc: Global, named: Vec<NamedBlock>) -> Result<Vec<Block>, AllocError>
        ensures { IfOk result (λ v. v.items
            ≡ map (block_of (λ l. number_at self.now.rows l self.now.behind)) named.items) }
    {
        let mut blocks = Vec::with_capacity(alloc, named.len())?;
        for block in named {
            blocks.push(self.block(alloc, block)?)?;
        }
        Ok(blocks)
    }
}

/// The blocks with numbers in place of names, in order from 2 on.
pub fn number_blocks(alloc: Global, named: Vec<NamedBlock>) -> Result<Vec<Block>, AllocError>
    ensures { IfOk result
        (λ v. v.items ≡ map (block_of (number_from 2 named.items)) named.items) }
{
    let numbers = Numbers::of(alloc, &named)?;
    let blocks = numbers.blocks(alloc, named)?;
    Ok(blocks)
}
