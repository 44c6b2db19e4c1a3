//! Whether counts have the shape that a net gives.

ghost use Rattle.std.specs.Prelude.{◌≡◌, ◌==◌, ◌&&◌, length};
ghost use Rattle.path_masks.specs.Masks.{width as width_of};
ghost use Rattle.function_tallies.specs.Tallies as spec;

use crate::parts::Parts;
use gcda_format::FunctionData;
use prime_paths::{Listing, Paths};

/// Whether the counts have this checksum, and as many counters and such words as the net gives.
pub fn has_shape(checksum: u32, parts: &Parts, counts: &FunctionData) -> bool
    ensures { result ≡ ((counts.now.checksum == checksum)
        && ((length counts.now.counters == parts.now.counters)
        && spec.fits_paths parts.now.listing counts.now.bits)) }
{
    counts.checksum == checksum
        && counts.counters.len() == parts.counters as usize
        && fits_paths(&parts.listing, &counts.bits)
}

/// Whether the words are those of these paths.
fn fits_paths(listing: &Listing, words: &[u64]) -> bool
    ensures { result ≡ spec.fits_paths listing.now words.now }
{
    match listing {
        Listing::All(paths) => words.len() == width(paths) && ends_below(paths.len(), words),
        Listing::LimitPassed => words.is_empty(),
    }
}

/// How many words so many paths have.
fn width(paths: &Paths) -> usize
    ensures { result ≡ width_of paths.now }
{
    paths.len().div_ceil(64) as usize
}

/// Whether no bit at or above the number is set, where there are no more words than so many bits
/// need.
fn ends_below(n: u32, words: &[u64]) -> bool
    ensures { result ≡ spec.ends_below n words.now }
{
    let word = words.get((n / 64) as usize).copied().unwrap_or(0);
    word >> (n % 64) == 0
}
