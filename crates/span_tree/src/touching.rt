//! The arcs that touch each block.

ghost use Rattle.std.specs.Prelude.{◌≡◌, ◌<◌, ◌^◌, [], length, get_or, replicate, IfOk, OnOk};
ghost use Rattle.std.specs.List.{All};
ghost use Rattle.span_tree.specs.Touching.{with_index, with_ends, AreTouching};

use cov_base::FlowArc;
use std::alloc::{AllocError, Global};
use std::marker::Model;

/// For each block the indices of the arcs that touch it, in order.
#[derive(Drop)]
pub struct Touching {
    rows: Vec<Vec<u32>>,
}

impl Model for Touching {
    ghost use Rattle.std.specs.Prelude.{List, ℕ, map};

    ghost Value = { List (List ℕ) };

    ghost view = { λ t. map (λ r. r.items) t.rows.items };
}

impl Touching {
    fn put(&mut self, block: u32, index: u32) -> Result<(), AllocError>
        requires { block < length self.old }
        ensures put { OnOk result (self.new ≡ with_index block index self.old) }
        ensures len { length self.new ≡ length self.old }
    {
        self.rows[block as usize].push(index)?;
        Ok(())
    }

    fn put_ends(&mut self, index: u32, arc: &FlowArc) -> Result<(), AllocError>
        requires from { arc.now.from < length self.old }
        requires to { arc.now.to < length self.old }
        ensures put { OnOk result (self.new ≡ with_ends index arc.now self.old) }
        ensures len { length self.new ≡ length self.old }
    {
        self.put(arc.from, index)?;
        if arc.to == arc.from {
            return Ok(());
        }
        self.put(arc.to, index)
    }

    /// The arcs that touch the block.
    pub fn row(&self, block: u32) -> &[u32]
        requires { block < length self.now }
        ensures { result.now ≡ get_or self.now block [] }
    {
        &self.rows[block as usize]
    }
}

/// The arcs that touch each of so many blocks.
pub fn touching_of(alloc: Global, blocks: u32, arcs: &[FlowArc]) -> Result<Touching, AllocError>
    requires fit { length arcs.now < 2 ^ 32 }
    requires ends { All (λ arc. (arc.from < blocks) × (arc.to < blocks)) arcs.now }
    ensures { IfOk result (λ t. AreTouching blocks arcs.now t) }
{
    let mut touching = empty_rows(alloc, blocks)?;
    let mut index = 0;
    for arc in arcs {
        touching.put_ends(index, arc)?;
        index += 1;
    }
    Ok(touching)
}

fn empty_rows(alloc: Global, blocks: u32) -> Result<Touching, AllocError>
    ensures { IfOk result (λ t. t ≡ replicate blocks []) }
{
    let mut rows = Vec::new(alloc);
    for _ in 0..blocks {
        rows.push(Vec::new(alloc))?;
    }
    Ok(Touching { rows })
}
