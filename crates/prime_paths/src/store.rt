//! Lists of blocks in one flat store.

ghost use Rattle.std.specs.Prelude.{◌≡◌, ◌+◌, ◌<◌, ◌^◌, ◌++◌, ◌∷◌, [], length, map};
ghost use Rattle.std.specs.Prelude.{slice_index_or, IfOk, OnOk, OnErr};

use cov_base::NoMemory;
use std::alloc::{AllocError, Global};
use std::marker::Model;

/// Where a list stands in the store.
#[derive(Clone, Copy)]
pub struct Span {
    /// Its first place.
    pub from: usize,
    /// The place behind its last.
    pub to: usize,
}

/// Lists of blocks.
#[derive(Drop)]
pub struct Paths {
    blocks: Vec<u32>,
    spans: Vec<Span>,
}

impl Model for Paths {
    ghost use Rattle.std.specs.Prelude.{List, ℕ, ◌<◌, ◌^◌, length};
    ghost use Rattle.prime_paths.specs.Store.{pieces, IsStore};

    ghost Value = { List (List ℕ) };

    ghost view = { λ p. pieces p.blocks.items p.spans.items };

    ghost invariant = { λ p. IsStore p.blocks.items p.spans.items };
}

impl Paths {
    /// No lists.
    pub(crate) fn new(alloc: Global) -> Paths
        ensures { result ≡ [] }
    {
        Paths {
            blocks: Vec::new(alloc),
            spans: Vec::new(alloc),
        }
    }

    /// These lists.
    pub fn of(alloc: Global, lists: Vec<Vec<u32>>) -> Result<Paths, NoMemory>
        requires { length lists.items < 2 ^ 32 }
        ensures { IfOk result (λ paths. paths ≡ map (λ v. v.items) lists.items) }
    {
        let mut paths = Paths::new(alloc);
        for list in &lists {
            paths.add(list, &[])?;
        }
        Ok(paths)
    }

    /// One list more, of a front and a rest.
    pub(crate) fn add(&mut self, front: &[u32], rest: &[u32]) -> Result<(), AllocError>
        requires { length self.old + 1 < 2 ^ 32 }
        ensures ok { OnOk result (self.new ≡ self.old ++ (front.now ++ rest.now) ∷ []) }
        ensures err { OnErr result (self.new ≡ self.old) }
    {
        let from = self.blocks.len();
        self.blocks.extend_from_slice(front)?;
        self.blocks.extend_from_slice(rest)?;
        let to = self.blocks.len();
        self.spans.push(Span { from, to })?;
        Ok(())
    }

    /// How many lists there are.
    pub fn len(&self) -> u32
        ensures { result ≡ length self.now }
    {
        self.spans.len() as u32
    }

    /// The list of this index.
    pub fn path(&self, k: u32) -> &[u32]
        requires { k < length self.now }
        ensures { result.now ≡ slice_index_or self.now k [] }
    {
        let span = self.spans[k as usize];
        &self.blocks[span.from..span.to]
    }
}
