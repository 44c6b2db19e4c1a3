//! A path on which no block stands twice, with marks of its blocks.

ghost use Rattle.std.specs.Prelude.{◌≡◌, ◌<◌, ◌++◌, ◌∷◌, [], true, false, length, IfOk, OnOk};
ghost use Rattle.std.specs.List.{list_any};
ghost use Rattle.prime_paths.specs.Paths.{among, distinct, front_of};
ghost use Rattle.prime_paths.specs.Trail.{first_of, last_of};
ghost use Rattle.prime_paths.specs.Search as spec;

use std::alloc::{AllocError, Global};
use std::marker::Model;

/// A path on which no block stands twice, with marks of its blocks.
#[derive(Drop)]
pub struct Trail {
    blocks: Vec<u32>,
    marks: Vec<bool>,
}

impl Model for Trail {
    ghost use Rattle.std.specs.Prelude.{length};
    ghost use Rattle.prime_paths.specs.Trail.{TrailValue, IsTrail};

    ghost Value = { TrailValue };

    ghost view = { λ t. record { blocks = t.blocks.items; room = length t.marks.items } };

    ghost invariant = { λ t. IsTrail t.marks.items t.blocks.items };
}

impl Trail {
    /// The path without blocks, among so many blocks.
    pub fn new(alloc: Global, room: u32) -> Result<Trail, AllocError>
        ensures { IfOk result (λ t. (t.blocks ≡ []) × (t.room ≡ room)) }
    {
        let marks = vec![in alloc; false; room as usize]?;
        Ok(Trail {
            blocks: Vec::new(alloc),
            marks,
        })
    }

    /// The blocks of the path.
    pub fn blocks(&self) -> &[u32]
        ensures value { result.now ≡ self.now.blocks }
        ensures apart { distinct self.now.blocks ≡ true }
    {
        &self.blocks
    }

    /// The first block of the path.
    pub fn first(&self) -> u32
        requires { 0 < length self.now.blocks }
        ensures value { result ≡ first_of self.now.blocks }
        ensures apart { distinct self.now.blocks ≡ true }
    {
        self.blocks[0]
    }

    /// The last block of the path.
    #[tactic(auto, using(crate::proofs::TrailLaws::last_at))]
    pub fn last(&self) -> u32
        requires { 0 < length self.now.blocks }
        ensures value { result ≡ last_of self.now.blocks }
        ensures within { result < self.now.room }
        ensures apart { distinct self.now.blocks ≡ true }
    {
        self.blocks[self.blocks.len() - 1]
    }

    /// Whether the block is one of the path.
    pub fn holds(&self, block: u32) -> bool
        ensures { result ≡ among block self.now.blocks }
    {
        match self.marks.get(block as usize) {
            Some(mark) => *mark,
            None => false,
        }
    }

    fn is_open(&self, end: u32, block: u32) -> bool
        ensures { result ≡ spec.is_open self.now.blocks end block }
    {
        block == end || !self.holds(block)
    }

    /// Whether some block of the row is none of the path, or is the end.
    pub fn any_open(&self, end: u32, row: &[u32]) -> bool
        ensures { result ≡ list_any (spec.is_open self.now.blocks end) row.now }
    {
        row.iter().any(|block| self.is_open(end, *block))
    }

    /// The path goes on to the block.
    pub fn push(&mut self, block: u32) -> Result<(), AllocError>
        requires within { block < self.old.room }
        requires other { among block self.old.blocks ≡ false }
        ensures blocks { OnOk result (self.new.blocks ≡ self.old.blocks ++ block ∷ []) }
        ensures room { self.new.room ≡ self.old.room }
    {
        self.blocks.push(block)?;
        self.marks[block as usize] = true;
        Ok(())
    }

    /// The path goes back from its last block.
    pub fn pop(&mut self)
        ensures blocks { self.new.blocks ≡ front_of self.old.blocks }
        ensures room { self.new.room ≡ self.old.room }
    {
        if let Some(block) = self.blocks.pop() {
            self.marks[block as usize] = false;
        }
    }
}
