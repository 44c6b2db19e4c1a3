//! A counter for each arc off a net's spanning tree.

ghost use Rattle.std.specs.Prelude.{◌≡◌, ◌+◌, ◌<◌, ◌^◌, ℕ, None, length, get_or, IfOk};
ghost use Rattle.std.specs.List.{All};
ghost use Rattle.span_tree.specs.Circulation.{Determine};
ghost use Rattle.span_tree.specs.Tree.{arrivals, off, off_from};
ghost use Rattle.arc_counters.specs.Plan.{counter_from};

use cov_base::{Net, NoMemory};
use span_tree::SpanTree;
use std::alloc::{AllocError, Global};
use std::marker::Model;

/// The arcs that have counters, in order: the first has counter 0, the next 1, and so on.
#[derive(Drop)]
pub struct Plan {
    off: Vec<u32>,
    counters: Vec<Option<u32>>,
}

impl Model for Plan {
    ghost use Rattle.std.specs.Prelude.{List, ℕ};
    ghost use Rattle.arc_counters.specs.Plan.{IsPlan};

    ghost Value = { List ℕ };

    ghost view = { λ p. p.off.items };

    ghost invariant = { λ p. IsPlan p.off.items p.counters.items };
}

/// Gives each arc of the net that is off its spanning tree a counter, in order of arcs. With B
/// blocks and A arcs there are A - (B - 2) counters, and the numbers on these arcs determine those
/// on all.
pub fn number(alloc: Global, net: &Net, tree: &SpanTree) -> Result<Plan, NoMemory>
    requires { tree.now ≡ arrivals net.now }
    ensures plan { IfOk result (λ p. p ≡ off net.now) }
    ensures many { IfOk result (λ p. length p + net.now.blocks ≡ length net.now.arcs + 2) }
    ensures determine { IfOk result (λ p. Determine p net.now) }
{
    let arcs = net.arcs().len();
    let off = off_tree(alloc, arcs as u32, tree)?;
    let counters = counters_of(alloc, arcs as u32, &off)?;
    Ok(Plan { off, counters })
}

fn off_tree(alloc: Global, arcs: u32, tree: &SpanTree) -> Result<Vec<u32>, AllocError>
    ensures off { IfOk result (λ v. v.items ≡ off_from tree.now 0 arcs) }
{
    let mut off = Vec::new(alloc);
    for arc in 0..arcs {
        if !tree.on_tree(arc) {
            off.push(arc)?;
        }
    }
    Ok(off)
}

fn counters_of(alloc: Global, arcs: u32, off: &[u32]) -> Result<Vec<Option<u32>>, AllocError>
    requires within { All (λ i. i < arcs) off.now }
    requires small { length off.now < 2 ^ 32 }
    ensures { IfOk result (λ v. (i : ℕ) → get_or v.items i None ≡ counter_from 0 off.now i) }
{
    let mut counters = vec![in alloc; None; arcs as usize]?;
    let mut left = off.len();
    while left > 0 {
        left -= 1;
        counters[off[left] as usize] = Some(left as u32);
    }
    Ok(counters)
}

impl Plan {
    /// The counter of the arc; none where the arc is on the tree.
    pub fn counter(&self, arc: u32) -> Option<u32>
        ensures { result ≡ counter_from 0 self.now arc }
    {
        match self.counters.get(arc as usize) {
            Some(counter) => *counter,
            None => None,
        }
    }

    /// How many counters there are.
    pub fn count(&self) -> u32
        ensures { result ≡ length self.now }
    {
        self.off.len() as u32
    }
}
