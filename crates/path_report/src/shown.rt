//! Functions as a report shows them.

ghost use Rattle.std.specs.Prelude.{◌≡◌, length, map, unsigned_abs, IfOk};
ghost use Rattle.std.specs.List.{All};
ghost use Rattle.cov_base.specs.Net.{IsNet};
ghost use Rattle.function_tallies.specs.Tallies.{IsOf};
ghost use Rattle.path_report.specs.Report as spec;
ghost use Rattle.path_report.specs.Tallies.{AreOf};
ghost use Rattle.report_parts.specs.Shown.{IsShown};

use function_tallies::FunctionTally;
use gcno_format::FunctionNotes;
use report_parts::Shown;
use std::alloc::{AllocError, Global};

/// How far from 0 each number is.
fn counts_of(alloc: Global, numbers: &[i128]) -> Result<Vec<u128>, AllocError>
    ensures { IfOk result (λ v. v.items ≡ map unsigned_abs numbers.now) }
{
    let mut counts = Vec::new(alloc);
    for number in numbers {
        counts.push(number.unsigned_abs())?;
    }
    Ok(counts)
}

/// A function as the report shows it.
fn shown<'a>(
    alloc: Global,
    limit: u32,
    function: &'a FunctionNotes,
    tally: &'a FunctionTally,
) -> Result<Shown<'a>, AllocError>
    requires { IsOf limit function.now.net tally.now }
    ensures value { IfOk result (λ f. f ≡ spec.shown function.now tally.now) }
    ensures net { IfOk result (λ f. IsNet function.now.net) }
{
    let counts = counts_of(alloc, &tally.arcs)?;
    let _blocks = function.net.blocks();
    Ok(Shown {
        name: function.name.bytes(),
        net: &function.net,
        counts,
        listing: &tally.listing,
        bits: &tally.bits,
    })
}

/// Each function as the report shows it.
pub fn all_shown<'a>(
    alloc: Global,
    limit: u32,
    functions: &'a [FunctionNotes],
    tallies: &'a [FunctionTally],
) -> Result<Vec<Shown<'a>>, AllocError>
    requires { AreOf limit functions.now tallies.now }
    ensures value { IfOk result (λ v. v.items ≡ spec.all_shown functions.now tallies.now) }
    ensures shown { IfOk result (λ v. All IsShown v.items) }
    ensures long { IfOk result (λ v. length v.items ≡ length functions.now) }
{
    let mut all = Vec::new(alloc);
    for (k, function) in functions.iter().enumerate() {
        all.push(shown(alloc, limit, function, &tallies[k])?)?;
    }
    Ok(all)
}
