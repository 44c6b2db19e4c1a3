//! The rows of a net's prime paths.

ghost use Rattle.std.specs.Prelude.{◌≡◌, ◌<◌, ◌≤◌, IfOk};
ghost use Rattle.prime_paths.specs.Listings.{Lists};
ghost use Rattle.covered_code.specs.Shapes.{IsListed};

use cov_base::{Net, NoMemory};
use path_masks::{Rows, rows_of};
use prime_paths::{Listing, list_primes};
use std::alloc::Global;
use std::marker::Brand;
use std::sync::ledger::{Blank, Ledger};
use word_rules::Steps;

/// The rows of paths, if there are some, and how many paths these are.
#[derive(Drop)]
pub struct Listed {
    pub rows: Option<Rows>,
    pub paths: u32,
}

/// The rows of all prime paths of the net, if there are no more than the limit.
#[tactic(auto, using(crate::proofs::ListedRows::listed_some, crate::proofs::ListedRows::listed_none, crate::proofs::ListedRows::listed_past))]
pub fn listed_rows(alloc: Global, net: &Net, limit: u32) -> Result<Listed, NoMemory>
    requires { limit ≤ 65536 }
    ensures { IfOk result (λ l. IsListed net.now limit l.rows l.paths) }
{
    match list_by::<Brand>(alloc, net, limit, Blank::new(1))? {
        Listing::All(paths) => {
            let count = paths.len();
            if count == 0 {
                return Ok(Listed {
                    rows: None,
                    paths: 0,
                });
            }
            let rows = rows_of(alloc, net, &paths)?;
            Ok(Listed {
                rows: Some(rows),
                paths: count,
            })
        }
        Listing::LimitPassed => Ok(Listed {
            rows: None,
            paths: 0,
        }),
    }
}

fn list_by<L: Ledger>(
    alloc: Global,
    net: &Net,
    limit: u32,
    blank: Blank,
) -> Result<Listing, NoMemory>
    requires limit { limit ≤ 65536 }
    requires name { blank.name ≡ L.name }
    requires parts { blank.parts ≡ L.parts }
    requires some { 0 < blank.parts }
    ensures { Lists net.now limit result }
{
    let mut steps = Steps::<L>::new(blank);
    list_primes(alloc, net, limit, &mut steps)
}
