//! What a report shows of a function, and sums over its arcs.

ghost use Rattle.std.specs.Prelude.{◌≡◌, ◌*◌, ◌≤◌, ◌^◌, if◌then◌else◌, length};
ghost use Rattle.std.specs.List.{All, count_by};
ghost use Rattle.cov_base.specs.Net.{IsNet};
ghost use Rattle.report_parts.specs.ArcTests as tests;
ghost use Rattle.report_parts.specs.Shown as spec;
ghost use Rattle.report_parts.specs.Shown.{IsShown};

use crate::arc_test::ArcTest;
use cov_base::{FlowArc, Net};
use prime_paths::Listing;
use std::marker::Model;

/// A function as a report shows it.
#[derive(Drop)]
pub struct Shown<'a> {
    /// Its name.
    pub name: &'a [u8],
    /// Its net.
    pub net: &'a Net,
    /// How often each arc was passed, in the order of arcs.
    pub counts: Vec<u128>,
    /// Its prime paths, or that there are more than the limit.
    pub listing: &'a Listing,
    /// A bit for each prime path, set where the path was covered.
    pub bits: &'a [u64],
}

impl<'a> Model for Shown<'a> {
    ghost use Rattle.report_parts.specs.Shown.{ShownValue};

    ghost Value = { ShownValue };

    ghost view = { λ f. record {
      name = f.name.now;
      net = f.net.now;
      counts = f.counts.items;
      listing = f.listing.now;
      bits = f.bits.now;
    } };
}

impl<'a> Shown<'a> {
    /// How many blocks its net has.
    pub fn blocks(&self) -> u32
        ensures { result ≡ self.now.net.blocks }
    {
        self.net.blocks()
    }

    /// The arcs of its net.
    pub fn arcs(&self) -> &[FlowArc]
        ensures value { result.now ≡ self.now.net.arcs }
        ensures net { IsNet self.now.net }
    {
        self.net.arcs()
    }

    /// Whether path k was covered.
    pub fn covers(&self, k: u32) -> bool
        ensures { result ≡ spec.has_bit self.now.bits k }
    {
        has_bit(self.bits, k)
    }

    /// The sum of the counts of the arcs that pass the test.
    pub fn total(&self, test: ArcTest) -> u128
        requires { IsShown self.now }
        ensures value { result ≡ spec.total (tests.passes test) self.now.net.arcs self.now.counts }
        ensures small { result ≤ 4096 * 2 ^ 80 }
    {
        let counts = self.counts.as_slice();
        let mut sum = 0;
        for (index, arc) in self.net.arcs().iter().enumerate() {
            sum += count_if(test, arc, counts[index]);
        }
        sum
    }
}

/// The count, where the arc passes the test.
fn count_if(test: ArcTest, arc: &FlowArc, count: u128) -> u128
    ensures value { result ≡ (if tests.passes test arc.now then count else 0) }
    ensures most { result ≤ count }
{
    if test.passes(arc) { count } else { 0 }
}

/// How many real arcs leave the block.
pub fn ways_out(arcs: &[FlowArc], block: u32) -> usize
    ensures value { result ≡ count_by (spec.is_way_out block) arcs.now }
    ensures most { result ≤ length arcs.now }
{
    let mut ways = 0;
    for arc in arcs {
        if ArcTest::IsWayOut(block).passes(arc) {
            ways += 1;
        }
    }
    ways
}

/// Whether the arc is marked as a branch: it is real, and the block that it leaves has two or more
/// real arcs out.
pub fn is_branch(arcs: &[FlowArc], arc: &FlowArc) -> bool
    ensures { result ≡ spec.is_branch arcs.now arc.now }
{
    ArcTest::IsWayOut(arc.from).passes(arc) && ways_out(arcs, arc.from) >= 2
}

/// Whether bit k of the words is set.
pub fn has_bit(words: &[u64], k: u32) -> bool
    ensures { result ≡ spec.has_bit words.now k }
{
    let word = words.get((k / 64) as usize).copied().unwrap_or(0);
    (word >> (k % 64)) & 1 == 1
}
