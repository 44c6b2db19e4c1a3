//! The tally of a function.

ghost use Rattle.std.specs.Prelude.{◌≡◌, ◌≤◌, IfOk, IfNone, IfSome};
ghost use Rattle.function_tallies.specs.Tallies as spec;

use crate::numbers::numbers_of;
use crate::parts::parts_of;
use crate::shape::has_shape;
use cov_base::{Net, Refusal};
use gcda_format::FunctionData;
use prime_paths::Listing;
use std::alloc::Global;
use std::marker::Model;

/// What a report needs of a function.
#[derive(Drop)]
pub struct FunctionTally {
    /// How often each arc was passed, in the order of arcs.
    pub arcs: Vec<i128>,
    /// Its prime paths, or that there are more than the limit.
    pub listing: Listing,
    /// A bit for each prime path, set where the path was covered; path k has bit k modulo 64 of
    /// word k / 64.
    pub bits: Vec<u64>,
}

impl Model for FunctionTally {
    ghost use Rattle.function_tallies.specs.Tally.{FunctionTallyValue};

    ghost Value = { FunctionTallyValue };

    ghost view = { λ t. record { arcs = t.arcs.items; listing = t.listing; bits = t.bits.items } };
}

/// Why notes and data give no tally.
#[derive(Clone, Copy, Debug, PartialEq, Eq)]
pub enum TallyFault {
    /// The stamps differ, of the notes and of the data.
    OtherBuild(u32, u32),
    /// The first function that one of both lacks, or whose counts have another checksum, another
    /// number of counters or words than its net and the limit give, or a bit past its paths.
    OtherShape(u32),
    /// The counters are those of no walks: the first such function, and its first arc with a
    /// negative number.
    NotAFlow(u32, u32),
}

/// The tally of the function of number k, of this checksum and net, from its counts, or the first
/// fault: another shape, or a negative number. The limit of paths is at most 65,536.
pub fn tally_function(
    alloc: Global,
    limit: u32,
    k: u32,
    checksum: u32,
    net: &Net,
    counts: &FunctionData,
) -> Result<FunctionTally, Refusal<TallyFault>>
    requires limit { limit ≤ 65536 }
    requires counts { spec.HasCounts counts.now }
    ensures tally { spec.TalliesFunction limit k checksum net.now counts.now result }
    ensures of { IfOk result (λ t. spec.IsOf limit net.now t) }
{
    let Ok(parts) = parts_of(alloc, limit, net) else {
        return Err(Refusal::NoMemory);
    };
    if !has_shape(checksum, &parts, counts) {
        return Err(Refusal::Refused(TallyFault::OtherShape(k)));
    }
    let arcs = numbers_of(alloc, k, net, &parts.tree, &counts.counters)?;
    let bits = Vec::from_slice(alloc, &counts.bits)?;
    Ok(FunctionTally {
        arcs,
        listing: parts.listing,
        bits,
    })
}
