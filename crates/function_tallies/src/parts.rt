//! What a net gives for the tally of its function.

ghost use Rattle.std.specs.Prelude.{◌≡◌, ◌≤◌, ◌<◌, length, Ok, IfOk};
ghost use Rattle.span_tree.specs.Tree.{arrivals, off};
ghost use Rattle.prime_paths.specs.Listings.{Lists};

use arc_counters::number;
use cov_base::{Net, NoMemory};
use prime_paths::{Listing, list_primes};
use span_tree::{SpanTree, tree_of};
use std::alloc::Global;
use std::marker::Brand;
use std::sync::ledger::{Blank, Ledger};
use word_rules::Steps;

/// What a net gives for the tally of its function.
#[derive(Drop)]
pub struct Parts {
    /// Its spanning tree.
    pub tree: SpanTree,
    /// How many counters it has.
    pub counters: u32,
    /// Its prime paths, or that there are more than the limit.
    pub listing: Listing,
}

fn list_by<L: Ledger>(
    alloc: Global,
    net: &Net,
    limit: u32,
    blank: Blank,
) -> Result<Listing, NoMemory>
    requires limit { limit ≤ 65536 }
    requires name { blank.name ≡ L.name }
    requires parts { blank.parts ≡ L.parts }
    requires some { 0 < blank.parts }
    ensures { Lists net.now limit result }
{
    let mut steps = Steps::<L>::new(blank);
    list_primes(alloc, net, limit, &mut steps)
}

/// The prime paths of the net, where no steps are counted.
fn list_uncounted(alloc: Global, net: &Net, limit: u32) -> Result<Listing, NoMemory>
    requires { limit ≤ 65536 }
    ensures { Lists net.now limit result }
{
    list_by::<Brand>(alloc, net, limit, Blank::new(1))
}

/// What the net gives for the tally of its function.
pub fn parts_of(alloc: Global, limit: u32, net: &Net) -> Result<Parts, NoMemory>
    requires { limit ≤ 65536 }
    ensures tree { IfOk result (λ p. p.tree ≡ arrivals net.now) }
    ensures counters { IfOk result (λ p. p.counters ≡ length (off net.now)) }
    ensures lists { IfOk result (λ p. Lists net.now limit (Ok p.listing)) }
{
    let tree = tree_of(alloc, net)?;
    let counters = number(alloc, net, &tree)?.count();
    let listing = list_uncounted(alloc, net, limit)?;
    Ok(Parts {
        tree,
        counters,
        listing,
    })
}
