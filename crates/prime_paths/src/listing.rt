//! All prime paths of a net, up to a limit.

ghost use Rattle.std.specs.Prelude.{◌≡◌, ◌+◌, ◌≤◌};
ghost use Rattle.prime_paths.specs.Listings.{Lists, Counts};
ghost use Rattle.prime_paths.specs.Search as spec;

use crate::found::{Found, Stop};
use crate::search::search;
use crate::store::Paths;
use crate::ways::Ways;
use cov_base::{Net, NoMemory};
use std::alloc::Global;
use std::sync::ledger::Ledger;
use word_rules::Steps;

/// The prime paths of a net, or that there are too many.
#[derive(Drop)]
pub enum Listing {
    /// Every prime path once, in the order of a dictionary.
    All(Paths),
    /// There are more than the limit.
    LimitPassed,
}

/// How many simple paths are extended at most. Each simple path is a part of a prime path, which
/// has at most `(blocks + 1) * (blocks + 2) / 2` parts.
fn budget(blocks: u32, limit: u32) -> u64
    requires blocks { blocks ≤ 512 }
    requires limit { limit ≤ 65536 }
    ensures { result ≡ spec.budget blocks limit }
{
    u64::from(limit) * ((u64::from(blocks) + 1) * (u64::from(blocks) + 2)) / 2
}

/// Lists the prime paths of the net, over blocks from 2 up and real arcs, if there are no more than
/// the limit, which is at most 65,536. A step is one extension of a simple path; so many are taken
/// at most that one more would show that the limit is passed.
pub fn list_primes<L: Ledger>(
    alloc: Global,
    net: &Net,
    limit: u32,
    steps: &mut Steps<L>,
) -> Result<Listing, NoMemory>
    requires { limit ≤ 65536 }
    ensures lists { Lists net.now limit result }
    ensures most { steps.new ≤ steps.old + spec.budget net.now.blocks limit }
    ensures counts { Counts net.now steps.old steps.new result }
{
    let ways = Ways::of(alloc, net)?;
    let mut found = Found::new(alloc, limit, budget(net.blocks(), limit));
    match search(alloc, &ways, &mut found, steps) {
        Ok(()) => Ok(Listing::All(found.into_paths())),
        Err(Stop::LimitPassed) => Ok(Listing::LimitPassed),
        Err(Stop::NoMemory) => Err(NoMemory),
    }
}
