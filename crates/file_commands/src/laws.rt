//! Laws of the commands. They speak of definitions alone, so that no change of a body proves them
//! again.

ghost use Rattle.file_commands.specs.Laws.{MergeSucceeds, ReportSucceeds};

/// Where all that a command needs is there and as it has to be, only the folder and memory stop its
/// steps: data of two programs that can be merged; or notes and the source that they are of, with
/// data that they have a tally with, or with none.
///
/// It does nothing: a caller gets its clauses.
pub fn complete()
    ensures merge { MergeSucceeds }
    ensures report { ReportSucceeds }
{}
