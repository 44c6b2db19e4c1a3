//! The arcs and the size of kept blocks, counted before the blocks are copied.

ghost use Rattle.std.specs.Prelude.{◌≡◌, ◌<◌, length, get_or, false, slice_get, IfOk};
ghost use Rattle.flow_graph.specs.GraphView.{ending_view};
ghost use Rattle.flow_graph.specs.Nets.{blocks_size, ending_size};
ghost use Rattle.fake_arcs.specs.Numbers.{number_by, kept_by, kept_here};
ghost use Rattle.fake_arcs.specs.Size.{counted};
ghost use Rattle.fake_arcs.specs.Counts.{arcs_count, arcs_in};

use crate::numbers::Numbers;
use crate::targets::targets_of;
use flow_graph::{Block, Ending};
use std::alloc::{AllocError, Global};

/// How many arcs leave blocks, and the size of the blocks; each stands still at the type's end.
#[derive(Clone, Copy)]
pub struct Counts {
    pub arcs: u64,
    pub size: u64,
}

/// How many arcs leave a block that ends so.
fn count_arcs(alloc: Global, end: &Ending) -> Result<u64, AllocError>
    ensures { IfOk result (λ n. n ≡ arcs_count (ending_view end.now)) }
{
    match end {
        Ending::Call(_, _, _) => Ok(2),
        Ending::Return => Ok(1),
        Ending::Exit => Ok(1),
        _ => {
            let found = targets_of(alloc, end)?;
            Ok(found.len() as u64)
        }
    }
}

/// What an ending adds to the size.
fn size_of_ending(end: &Ending) -> u64
    ensures { result ≡ ending_size (ending_view end.now) }
{
    match end {
        Ending::Branch(_, _) => 2,
        Ending::Switch(cases, _) => 2 + cases.len() as u64,
        _ => 1,
    }
}

fn count_at(
    alloc: Global,
    numbers: &Numbers,
    place: usize,
    blocks: &[Block],
) -> Result<Counts, AllocError>
    requires len { length numbers.now ≡ length blocks.now }
    requires within { place < length blocks.now }
    ensures arcs { IfOk result (λ c. c.arcs ≡ counted (arcs_in (kept_here
        (number_by numbers.now) (get_or numbers.now place false) (slice_get blocks.now place)))) }
    ensures size { IfOk result (λ c. c.size ≡ counted (blocks_size (kept_here
        (number_by numbers.now) (get_or numbers.now place false) (slice_get blocks.now place)))) }
{
    let marks = numbers.marks();
    if !marks[place] {
        return Ok(Counts { arcs: 0, size: 0 });
    }
    let block = &blocks[place];
    let end = numbers.rename(alloc, &block.end)?;
    let arcs = count_arcs(alloc, &end)?;
    let ending = size_of_ending(&end);
    Ok(Counts {
        arcs,
        size: (block.ops.len() as u64).saturating_add(ending),
    })
}

/// The arcs and the size of the marked blocks.
pub fn count(alloc: Global, numbers: &Numbers, blocks: &[Block]) -> Result<Counts, AllocError>
    requires { length numbers.now ≡ length blocks.now }
    ensures arcs { IfOk result (λ c. c.arcs
        ≡ counted (arcs_in (kept_by (number_by numbers.now) numbers.now blocks.now))) }
    ensures size { IfOk result (λ c. c.size
        ≡ counted (blocks_size (kept_by (number_by numbers.now) numbers.now blocks.now))) }
{
    let mut arcs = 0u64;
    let mut size = 0u64;
    for place in 0..blocks.len() {
        let here = count_at(alloc, numbers, place, blocks)?;
        arcs = arcs.saturating_add(here.arcs);
        size = size.saturating_add(here.size);
    }
    Ok(Counts { arcs, size })
}
