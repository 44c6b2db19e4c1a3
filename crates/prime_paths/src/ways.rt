//! The blocks next to each block of a net.

ghost use Rattle.std.specs.Prelude.{◌≡◌, ◌<◌, ◌&&◌, true, [], length, get_or, replicate};
ghost use Rattle.std.specs.Prelude.{nat_le, IfOk, OnOk};
ghost use Rattle.std.specs.List.{All};
ghost use Rattle.cov_base.specs.Falls.{is_real as is_real_kind};
ghost use Rattle.cov_base.specs.Net.{IsNet};
ghost use Rattle.prime_paths.specs.Paths.{is_inner, leads};
ghost use Rattle.prime_paths.specs.Ways.{next_blocks, prior_blocks, with_end, AreFilled};

use cov_base::{ArcKind, FlowArc, Net};
use std::alloc::{AllocError, Global};
use std::marker::Model;

/// For each block a row of blocks.
#[derive(Drop)]
pub struct Rows {
    rows: Vec<Vec<u32>>,
}

impl Model for Rows {
    ghost use Rattle.std.specs.Prelude.{List, ℕ, map};

    ghost Value = { List (List ℕ) };

    ghost view = { λ r. map (λ v. v.items) r.rows.items };
}

impl Rows {
    fn new(alloc: Global, blocks: u32) -> Result<Rows, AllocError>
        ensures { IfOk result (λ rows. rows ≡ replicate blocks []) }
    {
        let mut rows = Vec::new(alloc);
        for _ in 0..blocks {
            rows.push(Vec::new(alloc))?;
        }
        Ok(Rows { rows })
    }

    /// The far end of an arc comes into the row of its near end, if the arc is real and the far end
    /// a block from 2 up.
    fn put(&mut self, real: bool, near: u32, far: u32) -> Result<(), AllocError>
        requires { near < length self.old }
        ensures put { OnOk result (self.new ≡ with_end real near far self.old) }
        ensures len { length self.new ≡ length self.old }
    {
        if real && far >= 2 {
            self.rows[near as usize].push(far)?;
        }
        Ok(())
    }

    fn row(&self, block: u32) -> &[u32]
        requires { block < length self.now }
        ensures { result.now ≡ get_or self.now block [] }
    {
        &self.rows[block as usize]
    }
}

fn is_real(arc: &FlowArc) -> bool
    ensures { result ≡ is_real_kind arc.now.kind }
{
    match arc.kind {
        ArcKind::Real => true,
        ArcKind::CallExit => false,
    }
}

/// For each block the blocks that real arcs lead to from it.
fn next_of(alloc: Global, blocks: u32, arcs: &[FlowArc]) -> Result<Rows, AllocError>
    requires { All (λ arc. (arc.from < blocks) × (arc.to < blocks)) arcs.now }
    ensures { IfOk result
        (λ rows. AreFilled (λ arc. arc.from) (λ arc. arc.to) blocks arcs.now [] rows) }
{
    let mut rows = Rows::new(alloc, blocks)?;
    for arc in arcs {
        rows.put(is_real(arc), arc.from, arc.to)?;
    }
    Ok(rows)
}

/// For each block the blocks from which real arcs lead to it.
fn prior_of(alloc: Global, blocks: u32, arcs: &[FlowArc]) -> Result<Rows, AllocError>
    requires { All (λ arc. (arc.from < blocks) × (arc.to < blocks)) arcs.now }
    ensures { IfOk result
        (λ rows. AreFilled (λ arc. arc.to) (λ arc. arc.from) blocks arcs.now [] rows) }
{
    let mut rows = Rows::new(alloc, blocks)?;
    for arc in arcs {
        rows.put(is_real(arc), arc.to, arc.from)?;
    }
    Ok(rows)
}

/// A net, with the blocks next to each of its blocks.
#[derive(Drop)]
pub struct Ways<'a> {
    net: &'a Net,
    next: Rows,
    prior: Rows,
}

impl<'a> Model for Ways<'a> {
    ghost use Rattle.cov_base.specs.Net.{NetValue};
    ghost use Rattle.prime_paths.specs.Ways.{AreWays};

    ghost Value = { NetValue };

    ghost view = { λ w. w.net.now };

    ghost invariant = { λ w. AreWays w.net.now w.next w.prior };
}

impl<'a> Ways<'a> {
    /// The ways of a net.
    pub fn of(alloc: Global, net: &'a Net) -> Result<Ways<'a>, AllocError>
        ensures { IfOk result (λ ways. ways ≡ net.now) }
    {
        let next = next_of(alloc, net.blocks(), net.arcs())?;
        let prior = prior_of(alloc, net.blocks(), net.arcs())?;
        Ok(Ways { net, next, prior })
    }

    /// How many blocks the net has.
    pub fn blocks(&self) -> u32
        ensures { result ≡ self.now.blocks }
    {
        self.net.blocks()
    }

    /// The blocks from 2 up that real arcs lead to from the block, in order.
    pub fn next(&self, block: u32) -> &[u32]
        requires { block < self.now.blocks }
        ensures value { result.now ≡ next_blocks self.now block }
        ensures each { All
            (λ b. (leads self.now block b ≡ true) × (is_inner self.now b ≡ true)) result.now }
    {
        self.next.row(block)
    }

    /// The blocks from 2 up from which real arcs lead to the block, in order.
    pub fn prior(&self, block: u32) -> &[u32]
        requires { block < self.now.blocks }
        ensures { result.now ≡ prior_blocks self.now block }
    {
        self.prior.row(block)
    }
}
