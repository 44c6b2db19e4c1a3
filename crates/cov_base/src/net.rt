//! Flow nets: the blocks of a function, the arcs between them, and the source lines of each block.

ghost use Rattle.std.specs.Prelude.{◌≡◌, ◌^◌, ◌<◌, length, map, slice_index_or, []};
ghost use Rattle.cov_base.specs.Falls as spec;
ghost use Rattle.cov_base.specs.Net.{Makes, IsNet};

use crate::faults::first_fault;
use crate::refusal::Refusal;
use std::alloc::Global;
use std::marker::Model;

/// How control passes along an arc.
#[derive(Clone, Copy, Debug, PartialEq, Eq)]
pub enum ArcKind {
    /// Control goes from one block to the next.
    Real,
    /// A called function may end the program, so control leaves for the exit.
    CallExit,
}

/// A way for control to pass from one block to another.
#[derive(Clone, Copy, Debug, PartialEq, Eq)]
pub struct FlowArc {
    /// The block that is left.
    pub from: u32,
    /// The block that is entered.
    pub to: u32,
    /// How control passes.
    pub kind: ArcKind,
}

/// Why blocks, arcs and lines make no net.
#[derive(Clone, Copy, Debug, PartialEq, Eq)]
pub enum NetFault {
    /// The number of blocks, which is below 3 or above 512.
    Blocks(u32),
    /// The number of arcs, which is above 4,096.
    Arcs(u32),
    /// The index of an arc with an end that is no block, or that goes into the entry or out of the
    /// exit.
    Range(u32),
    /// The index of an arc that is not greater, by its ends, than the one before it.
    Order(u32),
    /// The index of an arc that leaves the entry for another block than 2, or enters block 2 from
    /// another than the entry; 0 where no arc leads from the entry to block 2.
    Entry(u32),
    /// The index of a call-exit arc that does not enter the exit.
    Kind(u32),
    /// The block whose list of lines is missing, is not strictly ascending, holds line 0, or is not
    /// empty at the entry or the exit; the number of blocks where there are more lists.
    Lines(u32),
    /// The least block from 2 up that no arcs lead to from block 2.
    Apart(u32),
}

/// The net of a function: block 0 is the entry, block 1 the exit, and each block from 2 up is
/// reached from block 2, the only one after the entry.
#[derive(Drop)]
pub struct Net {
    blocks: u32,
    arcs: Vec<FlowArc>,
    lines: Vec<Vec<u32>>,
}

impl Model for Net {
    ghost use Rattle.std.specs.Prelude.{map};
    ghost use Rattle.cov_base.specs.Net.{NetValue, IsNet};

    ghost Value = { NetValue };

    ghost view = { λ n.
        record {
          blocks = n.blocks;
          arcs = n.arcs.items;
          lines = map (λ v. v.items) n.lines.items;
        } };

    ghost invariant = { λ n. IsNet (record {
      blocks = n.blocks;
      arcs = n.arcs.items;
      lines = map (λ v. v.items) n.lines.items;
    }) };
}

impl Net {
    /// Makes a net of 3 to 512 blocks, at most 4,096 arcs in ascending order by their ends, and one
    /// list of lines a block. A refusal tells the first fault; only the marks of reached blocks
    /// take memory.
    pub fn new(
        alloc: Global,
        blocks: u32,
        arcs: Vec<FlowArc>,
        lines: Vec<Vec<u32>>,
    ) -> Result<Net, Refusal<NetFault>>
        requires arcs_fit { length arcs.items < 2 ^ 32 }
        requires lines_fit { length lines.items < 2 ^ 32 }
        ensures { Makes
            (record { blocks = blocks; arcs = arcs.items; lines = map (λ v. v.items) lines.items })
            result }
    {
        if let Some(fault) = first_fault(alloc, blocks, &arcs, &lines)? {
            return Err(Refusal::Refused(fault));
        }
        Ok(Net {
            blocks,
            arcs,
            lines,
        })
    }

    /// How many blocks there are.
    pub fn blocks(&self) -> u32
        ensures value { result ≡ self.now.blocks }
        ensures net { IsNet self.now }
    {
        self.blocks
    }

    /// The arcs, in ascending order by their ends.
    pub fn arcs(&self) -> &[FlowArc]
        ensures value { result.now ≡ self.now.arcs }
        ensures net { IsNet self.now }
    {
        &self.arcs
    }

    /// The source lines of the block, in ascending order.
    pub fn lines(&self, block: u32) -> &[u32]
        requires { block < self.now.blocks }
        ensures value { result.now ≡ slice_index_or self.now.lines block [] }
        ensures net { IsNet self.now }
    {
        &self.lines[block as usize]
    }
}

/// Whether control falls through along the arc: it is real, and leaves the entry or enters the next
/// block.
pub fn falls(arc: &FlowArc) -> bool
    ensures { result ≡ spec.falls arc.now }
{
    match arc.kind {
        ArcKind::Real => arc.from == 0 || (arc.to != 0 && arc.to - 1 == arc.from),
        ArcKind::CallExit => false,
    }
}
