//! The tally of notes where no run was made.

ghost use Rattle.std.specs.Prelude.{◌≡◌, ◌<◌, ◌≤◌, IfOk};
ghost use Rattle.gcno_format.specs.Spelling.{IsNotes};
ghost use Rattle.path_report.specs.Tallies.{IsTallyOf};
ghost use Rattle.prime_paths.specs.Listings.{Lists};
ghost use Rattle.file_commands.specs.Tallied.{AreUnrun, IsEmptyTally, IsUnrun, words_for};

use cov_base::{Net, NoMemory};
use function_tallies::FunctionTally;
use gcno_format::{FunctionNotes, Notes};
use path_report::Tally;
use prime_paths::{Listing, list_primes};
use std::alloc::Global;
use std::marker::Brand;
use std::sync::ledger::{Blank, Ledger};
use word_rules::Steps;

/// The tally of these notes where no run was made.
pub fn empty_tally(alloc: Global, notes: &Notes) -> Result<Tally, NoMemory>
    requires { IsNotes notes.now }
    ensures empty { IfOk result (λ t. IsEmptyTally notes.now t) }
    ensures of { IfOk result (λ t. IsTallyOf notes.now t) }
{
    let functions = all_unrun(alloc, notes.limit, &notes.functions)?;
    Ok(Tally { runs: 0, functions })
}

/// Each of these functions where none was run.
fn all_unrun(
    alloc: Global,
    limit: u32,
    functions: &[FunctionNotes],
) -> Result<Vec<FunctionTally>, NoMemory>
    requires { limit ≤ 65536 }
    ensures { IfOk result (λ v. AreUnrun limit functions.now v.items) }
{
    let mut tallies = Vec::new(alloc);
    for function in functions {
        tallies.push(unrun(alloc, limit, function)?)?;
    }
    Ok(tallies)
}

/// A function of which nothing was run.
fn unrun(alloc: Global, limit: u32, function: &FunctionNotes) -> Result<FunctionTally, NoMemory>
    requires { limit ≤ 65536 }
    ensures { IfOk result (λ t. IsUnrun limit function.now t) }
{
    let listing = list_uncounted(alloc, &function.net, limit)?;
    let arcs = vec![in alloc; 0i128; function.net.arcs().len()]?;
    let bits = vec![in alloc; 0u64; words_for(&listing)]?;
    Ok(FunctionTally {
        arcs,
        listing,
        bits,
    })
}

/// How many words the listed paths need.
fn words_for(listing: &Listing) -> usize
    ensures { result ≡ words_for listing.now }
{
    match listing {
        Listing::All(paths) => paths.len().div_ceil(64) as usize,
        Listing::LimitPassed => 0,
    }
}

/// The prime paths of the net, where no steps are counted.
fn list_uncounted(alloc: Global, net: &Net, limit: u32) -> Result<Listing, NoMemory>
    requires { limit ≤ 65536 }
    ensures { Lists net.now limit result }
{
    list_by::<Brand>(alloc, net, limit, Blank::new(1))
}

fn list_by<L: Ledger>(
    alloc: Global,
    net: &Net,
    limit: u32,
    blank: Blank,
) -> Result<Listing, NoMemory>
    requires limit { limit ≤ 65536 }
    requires name { blank.name ≡ L.name }
    requires parts { blank.parts ≡ L.parts }
    requires some { 0 < blank.parts }
    ensures { Lists net.now limit result }
{
    let mut steps = Steps::<L>::new(blank);
    list_primes(alloc, net, limit, &mut steps)
}
