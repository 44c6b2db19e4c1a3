//! How the blocks of a net come, in order of arrival.

ghost use Rattle.std.specs.Prelude.{◌≡◌, ◌<◌, ◌==◌, None, length, slice_get, IfOk, OnOk};
ghost use Rattle.std.specs.Prelude.{if◌then◌else◌};
ghost use Rattle.std.specs.List.{All};
ghost use Rattle.span_tree.specs.Tree.{with_block, look, after_block, after_arrival};
ghost use Rattle.span_tree.specs.Tree.{exit_alone, arrivals};
ghost use Rattle.span_tree.specs.Touching.{touching, AreTouching};
ghost use Rattle.span_tree.specs.Arriving.{looked_at};

use crate::arrival::Arrival;
use crate::touching::{Touching, touching_of};
use cov_base::{FlowArc, Net};
use std::alloc::{AllocError, Global};
use std::marker::Model;

/// The blocks that are there, in order of arrival, with a mark for each block of the net.
#[derive(Drop)]
struct Arriving {
    there: Vec<Arrival>,
    marks: Vec<bool>,
}

impl Model for Arriving {
    ghost use Rattle.std.specs.Prelude.{length};
    ghost use Rattle.span_tree.specs.Arriving.{ArrivingValue, IsArriving};

    ghost Value = { ArrivingValue };

    ghost view = { λ a. record { there = a.there.items; room = length a.marks.items } };

    ghost invariant = { λ a. IsArriving a.marks.items a.there.items };
}

impl Arriving {
    /// The exit alone is there.
    fn new(alloc: Global, blocks: u32) -> Result<Arriving, AllocError>
        requires { 1 < blocks }
        ensures { IfOk result (λ a. (a.there ≡ exit_alone) × (a.room ≡ blocks)) }
    {
        let mut marks = vec![in alloc; false; blocks as usize]?;
        let mut there = Vec::new(alloc);
        there.push(Arrival {
            block: 1,
            link: None,
        })?;
        marks[1] = true;
        Ok(Arriving { there, marks })
    }

    /// The block comes by the arc, if it isn't there yet.
    fn come(&mut self, link: Option<u32>, block: u32) -> Result<(), AllocError>
        requires { block < self.old.room }
        ensures there { OnOk result (self.new.there ≡ with_block link block self.old.there) }
        ensures room { self.new.room ≡ self.old.room }
    {
        if self.marks[block as usize] {
            return Ok(());
        }
        self.there.push(Arrival { block, link })?;
        self.marks[block as usize] = true;
        Ok(())
    }

    /// The arc of this index is looked at from a block: if it touches the block, its other end
    /// comes.
    fn look(&mut self, block: u32, index: u32, arc: &FlowArc) -> Result<(), AllocError>
        requires from { arc.now.from < self.old.room }
        requires to { arc.now.to < self.old.room }
        ensures there { OnOk result (self.new.there ≡ look block index arc.now self.old.there) }
        ensures room { self.new.room ≡ self.old.room }
    {
        if arc.from == block {
            return self.come(Some(index), arc.to);
        }
        if arc.to == block {
            return self.come(Some(index), arc.from);
        }
        Ok(())
    }

    /// The arcs of these indices are looked at from a block, in order.
    fn look_at(&mut self, block: u32, indices: &[u32], arcs: &[FlowArc]) -> Result<(), AllocError>
        requires indices { All (λ i. i < length arcs.now) indices.now }
        requires ends { All
            (λ arc. (arc.from < self.old.room) × (arc.to < self.old.room)) arcs.now }
        ensures there { OnOk result
            (self.new.there ≡ looked_at arcs.now block indices.now self.old.there) }
        ensures room { self.new.room ≡ self.old.room }
    {
        for index in indices {
            self.look(block, *index, &arcs[*index as usize])?;
        }
        Ok(())
    }

    /// A block is taken: from the exit the unwritten arc is looked at first, then each arc that
    /// touches the block.
    fn take(&mut self, block: u32, indices: &[u32], arcs: &[FlowArc]) -> Result<(), AllocError>
        requires some { 0 < self.old.room }
        requires indices { indices.now ≡ touching block 0 arcs.now }
        requires ends { All
            (λ arc. (arc.from < self.old.room) × (arc.to < self.old.room)) arcs.now }
        ensures there { OnOk result
            (self.new.there ≡ after_block arcs.now block self.old.there) }
        ensures room { self.new.room ≡ self.old.room }
    {
        self.take_unwritten(block)?;
        self.look_at(block, indices, arcs)?;
        Ok(())
    }

    fn take_unwritten(&mut self, block: u32) -> Result<(), AllocError>
        requires some { 0 < self.old.room }
        ensures there { OnOk result (self.new.there
            ≡ (if block == 1 then with_block None 0 self.old.there else self.old.there)) }
        ensures room { self.new.room ≡ self.old.room }
    {
        if block == 1 {
            return self.come(None, 0);
        }
        Ok(())
    }

    /// The block that came at this place is taken, if one has come there.
    fn take_at(
        &mut self,
        place: u32,
        touching: &Touching,
        arcs: &[FlowArc],
    ) -> Result<(), AllocError>
        requires some { 0 < self.old.room }
        requires touching { AreTouching self.old.room arcs.now touching.now }
        requires ends { All
            (λ arc. (arc.from < self.old.room) × (arc.to < self.old.room)) arcs.now }
        ensures there { OnOk result (self.new.there
            ≡ after_arrival arcs.now (slice_get self.old.there place) self.old.there) }
        ensures room { self.new.room ≡ self.old.room }
    {
        match self.there.get(place as usize) {
            Some(arrival) => {
                let block = arrival.block;
                self.take(block, touching.row(block), arcs)
            }
            None => Ok(()),
        }
    }
}

/// The blocks of the net in order of arrival.
pub fn arrive(alloc: Global, net: &Net) -> Result<Vec<Arrival>, AllocError>
    ensures { IfOk result (λ v. v.items ≡ arrivals net.now) }
{
    let blocks = net.blocks();
    let arcs = net.arcs();
    let touching = touching_of(alloc, blocks, arcs)?;
    let mut arriving = Arriving::new(alloc, blocks)?;
    for place in 0..blocks {
        arriving.take_at(place, &touching, arcs)?;
    }
    Ok(arriving.there)
}
