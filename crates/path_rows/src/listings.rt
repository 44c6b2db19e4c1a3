//! The prime paths of a net, for a caller that counts no steps.

ghost use Rattle.std.specs.Prelude.{◌≡◌, ◌<◌, ◌≤◌};
ghost use Rattle.prime_paths.specs.Listings.{Lists};

use cov_base::{Net, NoMemory};
use prime_paths::{Listing, list_primes};
use std::alloc::Global;
use std::marker::Brand;
use std::sync::ledger::{Blank, Ledger};
use word_rules::Steps;

fn list_by<L: Ledger>(
    alloc: Global,
    net: &Net,
    limit: u32,
    blank: Blank,
) -> Result<Listing, NoMemory>
    requires limit { limit ≤ 65536 }
    requires name { blank.name ≡ L.name }
    requires parts { blank.parts ≡ L.parts }
    requires some { 0 < blank.parts }
    ensures { Lists net.now limit result }
{
    let mut steps = Steps::<L>::new(blank);
    list_primes(alloc, net, limit, &mut steps)
}

/// The prime paths of the net, if there are no more than the limit, which is at most 65,536.
pub fn list_uncounted(alloc: Global, net: &Net, limit: u32) -> Result<Listing, NoMemory>
    requires { limit ≤ 65536 }
    ensures { Lists net.now limit result }
{
    list_by::<Brand>(alloc, net, limit, Blank::new(1))
}
