//! The tally of notes with data or without.

ghost use Rattle.std.specs.Prelude.{◌≡◌, IfOk, IfSome};
ghost use Rattle.gcda_format.specs.Data.{IsData};
ghost use Rattle.gcno_format.specs.Spelling.{IsNotes};
ghost use Rattle.path_report.specs.Tallies.{IsTallyOf};
ghost use Rattle.file_commands.specs.Tallied.{IsTallied, answer_of};

use crate::empty::empty_tally;
use cov_answers::End;
use cov_base::Refusal;
use function_tallies::TallyFault;
use gcda_format::Data;
use gcno_format::Notes;
use path_report::{Tally, tally};
use std::alloc::Global;

/// The tally of the notes and the data, or that of no run where there are none.
///
/// # Errors
///
/// The answer to the first fault that stands, or `NoMemory`.
pub fn tallied(alloc: Global, notes: &Notes, counts: &Option<Data>) -> Result<Tally, End>
    requires notes { IsNotes notes.now }
    requires counts { IfSome counts.now IsData }
    ensures tallied { IsTallied notes.now counts.now result }
    ensures of { IfOk result (λ t. IsTallyOf notes.now t) }
{
    match counts {
        Some(counts) => match tally(alloc, notes, counts) {
            Ok(tally) => Ok(tally),
            Err(Refusal::Refused(fault)) => Err(answer_of(fault)),
            Err(Refusal::NoMemory) => Err(End::NoMemory),
        },
        None => Ok(empty_tally(alloc, notes)?),
    }
}

/// The answer to why notes and data have no tally.
fn answer_of(fault: TallyFault) -> End
    ensures { result ≡ answer_of fault }
{
    match fault {
        TallyFault::OtherBuild(noted, counted) => End::OtherBuild(noted, counted),
        TallyFault::OtherShape(function) => End::OtherShape(function),
        TallyFault::NotAFlow(function, arc) => End::NotAFlow(function, arc),
    }
}
