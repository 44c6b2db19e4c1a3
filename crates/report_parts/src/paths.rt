//! The lines of a report on the prime paths of a function.

ghost use Rattle.std.specs.Prelude.{◌≡◌, ◌++◌, OnOk};
ghost use Rattle.report_parts.specs.Functions as spec;

use crate::numbers::{push_number, push_spaced};
use crate::shown::has_bit;
use prime_paths::{Listing, Paths};
use std::alloc::AllocError;

/// Appends a path, and whether it was covered.
#[tactic(auto, unfolding(crate::specs::Functions::path_line))]
fn push_path(out: &mut Vec<u8>, path: &[u32], covered: bool) -> Result<(), AllocError>
    ensures { OnOk result (out.new.items ≡ out.old.items ++ spec.path_line path.now covered) }
{
    out.extend_from_slice(cover_words(covered).as_bytes())?;
    push_spaced(out, path)?;
    out.extend_from_slice(b"\n")?;
    Ok(())
}

fn cover_words(covered: bool) -> &'static str
    ensures { result.now ≡ spec.cover_text covered }
{
    if covered {
        "path covered"
    } else {
        "path missed"
    }
}

/// Appends these paths.
fn push_listed(out: &mut Vec<u8>, paths: &Paths, bits: &[u64]) -> Result<(), AllocError>
    ensures { OnOk result (out.new.items ≡ out.old.items ++ spec.path_lines bits.now 0 paths.now) }
{
    for k in 0..paths.len() {
        push_path(out, paths.path(k), has_bit(bits, k))?;
    }
    Ok(())
}

/// Appends that there are more paths than the limit.
#[tactic(auto, unfolding(crate::specs::Functions::more_line))]
fn push_more(out: &mut Vec<u8>, limit: u32) -> Result<(), AllocError>
    ensures { OnOk result (out.new.items ≡ out.old.items ++ spec.more_line limit) }
{
    out.extend_from_slice(b"paths more than ")?;
    push_number(out, u128::from(limit))?;
    out.extend_from_slice(b"\n")?;
    Ok(())
}

/// Appends the paths, or that there are more than the limit.
pub fn push_paths(
    out: &mut Vec<u8>,
    limit: u32,
    listing: &Listing,
    bits: &[u64],
) -> Result<(), AllocError>
    ensures { OnOk result (out.new.items
        ≡ out.old.items ++ spec.paths_text limit bits.now listing.now) }
{
    match listing {
        Listing::All(paths) => push_listed(out, paths, bits)?,
        Listing::LimitPassed => push_more(out, limit)?,
    }
    Ok(())
}
