//! The tally of notes and data.

ghost use Rattle.std.specs.Prelude.{◌≡◌, ◌≤◌, length, IfOk, IfErr};
ghost use Rattle.std.specs.List.{All};
ghost use Rattle.function_tallies.specs.Tallies.{HasCounts, IsOf, TalliesFunction};
ghost use Rattle.gcda_format.specs.Data.{word_limit};
ghost use Rattle.gcno_format.specs.Notes.{path_limit};
ghost use Rattle.path_report.specs.Tallies as spec;

use crate::tallies::Tally;
use cov_base::Refusal;
use function_tallies::{FunctionTally, TallyFault, tally_function};
use gcda_format::{Data, FunctionData};
use gcno_format::{FunctionNotes, Notes};
use std::alloc::Global;

/// The tally of the notes and the data, whose limit of paths is at most 65,536: the runs, and of
/// each function the only numbers on its arcs that agree with the counters and balance, its prime
/// paths, and the bits of the covered ones. A refusal tells the first fault that stands: other
/// stamps, and then function by function.
#[tactic(auto, using(crate::proofs::TallyLaws::refuses))]
pub fn tally(alloc: Global, notes: &Notes, counts: &Data) -> Result<Tally, Refusal<TallyFault>>
    requires limit { notes.now.limit ≤ path_limit }
    requires notes_few { length notes.now.functions ≤ word_limit }
    requires counts_few { length counts.now.functions ≤ word_limit }
    requires counts { All HasCounts counts.now.functions }
    ensures tally { spec.Tallies notes.now counts.now result }
    ensures of { IfOk result (λ t. spec.IsTallyOf notes.now t) }
{
    if notes.stamp != counts.stamp {
        return Err(Refusal::Refused(TallyFault::OtherBuild(notes.stamp, counts.stamp)));
    }
    match tally_functions(alloc, notes.limit, &notes.functions, &counts.functions) {
        Ok(functions) => Ok(Tally {
            runs: counts.runs,
            functions,
        }),
        Err(refusal) => Err(refusal),
    }
}

/// The tally of the function of number k, or its fault.
fn tally_noted(
    alloc: Global,
    limit: u32,
    k: u32,
    function: &FunctionNotes,
    counts: &FunctionData,
) -> Result<FunctionTally, Refusal<TallyFault>>
    requires limit { limit ≤ 65536 }
    requires counts { HasCounts counts.now }
    ensures tally { TalliesFunction limit k function.now.checksum function.now.net counts.now
        result }
    ensures of { IfOk result (λ t. IsOf limit function.now.net t) }
{
    tally_function(alloc, limit, k, function.checksum, &function.net, counts)
}

/// The tally of each function, or the first fault.
fn tally_functions(
    alloc: Global,
    limit: u32,
    functions: &[FunctionNotes],
    counts: &[FunctionData],
) -> Result<Vec<FunctionTally>, Refusal<TallyFault>>
    requires limit { limit ≤ 65536 }
    requires functions_few { length functions.now ≤ word_limit }
    requires counts_few { length counts.now ≤ word_limit }
    requires counts { All HasCounts counts.now }
    ensures ok { IfOk result (λ v. spec.AreTallied limit functions.now counts.now v.items) }
    ensures of { IfOk result (λ v. spec.AreOf limit functions.now v.items) }
    ensures err { IfErr result (spec.RefusesFirst limit functions.now counts.now) }
{
    let mut tallies = Vec::new(alloc);
    for (k, function) in functions.iter().enumerate() {
        if k == counts.len() {
            return Err(Refusal::Refused(TallyFault::OtherShape(k as u32)));
        }
        tallies.push(tally_noted(alloc, limit, k as u32, function, &counts[k])?)?;
    }
    if counts.len() > functions.len() {
        return Err(Refusal::Refused(TallyFault::OtherShape(functions.len() as u32)));
    }
    Ok(tallies)
}
