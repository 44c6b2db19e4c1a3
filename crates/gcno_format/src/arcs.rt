//! The records of blocks and of arcs, and the checksum over them.

ghost use Rattle.std.specs.Prelude.{◌≡◌, ◌+◌, ◌*◌, ◌<◌, ◌≤◌, ◌^◌, ◌++◌, ◌∷◌};
ghost use Rattle.std.specs.Prelude.{length, drop, flat_map, position};
ghost use Rattle.std.specs.Prelude.{OnOk, IfOk, IfSome};
ghost use Rattle.gcno_format.specs.Marks.{leavings, front_leaving, block_of, leaves_other};
ghost use Rattle.gcno_format.specs.Spelling as spec;

use crate::marks::{Marked, marks_of};
use crate::{ARC_TAG, BLOCK_TAG};
use cov_base::{Net, NoMemory};
use gcov_items::{put_header, put_word};
use sha2::{Digest, Sha256};
use std::alloc::Global;

/// The checksum of a net: the first four bytes, the least first, of the SHA-256 of its records of
/// blocks and arcs.
pub fn checksum_of(alloc: Global, net: &Net) -> Result<u32, NoMemory>
    ensures { IfOk result (λ n. n ≡ spec.checksum_of net.now) }
{
    let arcs = marks_of(alloc, net)?;
    sum_of(alloc, net.blocks(), &arcs)
}

/// The checksum of so many blocks and these arcs.
#[tactic(auto, unfolding(crate::specs::Spelling::sum_of))]
pub fn sum_of(alloc: Global, blocks: u32, arcs: &[Marked]) -> Result<u32, NoMemory>
    requires { 4 + 8 * length arcs.now < 2 ^ 32 }
    ensures { IfOk result (λ n. n ≡ spec.sum_of blocks arcs.now) }
{
    let mut records = Vec::new(alloc);
    put_blocks(&mut records, blocks)?;
    put_arcs(&mut records, arcs)?;
    let mut hasher = Sha256::new();
    hasher.update(records.as_slice());
    let digest = hasher.finalize();
    Ok(u32::from_le_bytes([digest[0], digest[1], digest[2], digest[3]]))
}

/// Adds the record of the number of blocks.
#[tactic(auto, unfolding(crate::specs::Spelling::blocks_bytes))]
pub fn put_blocks(out: &mut Vec<u8>, blocks: u32) -> Result<(), NoMemory>
    ensures { OnOk result (out.new.items ≡ out.old.items ++ spec.blocks_bytes blocks) }
{
    put_header(out, BLOCK_TAG, 4)?;
    put_word(out, blocks)?;
    Ok(())
}

/// Adds a record for each block that the arcs leave.
pub fn put_arcs(out: &mut Vec<u8>, arcs: &[Marked]) -> Result<(), NoMemory>
    requires { 4 + 8 * length arcs.now < 2 ^ 32 }
    ensures { OnOk result (out.new.items ≡ out.old.items ++ spec.arcs_bytes arcs.now) }
{
    let mut at = 0;
    while at < arcs.len() {
        let rest = &arcs[at..];
        let count = front_length(rest);
        put_leaving(out, &rest[..count])?;
        at += count;
    }
    Ok(())
}

/// How many arcs at the front leave the same block.
fn front_length(arcs: &[Marked]) -> usize
    requires { 0 < length arcs.now }
    ensures some { 0 < result }
    ensures within { result ≤ length arcs.now }
    ensures front { leavings arcs.now
        ≡ front_leaving result arcs.now ∷ leavings (drop result arcs.now) }
{
    match first_other(first_block(arcs), arcs) {
        Some(count) => count,
        None => arcs.len(),
    }
}

/// The block that the first arc leaves.
fn first_block(arcs: &[Marked]) -> u32
    requires { 0 < length arcs.now }
    ensures { result ≡ block_of arcs.now }
{
    arcs[0].from
}

/// The index of the first arc that leaves another block.
fn first_other(block: u32, arcs: &[Marked]) -> Option<usize>
    ensures value { result ≡ position (leaves_other block) arcs.now }
    ensures within { IfSome result (λ i. i < length arcs.now) }
{
    arcs.iter().position(|arc| arc.from != block)
}

/// Adds the record of a block that these arcs leave.
#[tactic(auto, unfolding(crate::specs::Spelling::leaving_bytes))]
fn put_leaving(out: &mut Vec<u8>, arcs: &[Marked]) -> Result<(), NoMemory>
    requires some { 0 < length arcs.now }
    requires few { 4 + 8 * length arcs.now < 2 ^ 32 }
    ensures { OnOk result (out.new.items ≡ out.old.items ++ spec.leaving_bytes
        (record { block = block_of arcs.now; arcs = arcs.now })) }
{
    put_header(out, ARC_TAG, 4 + 8 * arcs.len() as u32)?;
    put_word(out, first_block(arcs))?;
    put_ways(out, arcs)?;
    Ok(())
}

fn put_ways(out: &mut Vec<u8>, arcs: &[Marked]) -> Result<(), NoMemory>
    ensures { OnOk result (out.new.items ≡ out.old.items ++ flat_map spec.way_bytes arcs.now) }
{
    for arc in arcs.iter() {
        put_way(out, arc)?;
    }
    Ok(())
}

fn put_way(out: &mut Vec<u8>, arc: &Marked) -> Result<(), NoMemory>
    ensures { OnOk result (out.new.items ≡ out.old.items ++ spec.way_bytes arc.now) }
{
    put_word(out, arc.to)?;
    put_word(out, arc.flags)?;
    Ok(())
}
