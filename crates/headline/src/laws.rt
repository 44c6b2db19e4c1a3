//! Laws of the commands for a C source. They speak of definitions alone, so that no change of a
//! body proves them again.

ghost use Rattle.headline.specs.Laws.{CoversAreMeant, ReadyIsCovered, RunsAreMeant};
ghost use Rattle.headline.specs.Laws.{MergesAddUp, OpenRunsAreMeant, ReportsAreMeant, RunsAddUp};
ghost use Rattle.headline.specs.Laws.{ReadyIsMerged, ReadyIsReported, ReadyIsRun, RunsAreKept};

/// Each run of a code that counts and renders a C source has the output and the ending that the
/// source means, whatever the input and the turns; and where it returned or exited, its data are
/// those of one run with just its walks.
///
/// It does nothing: a caller gets its clauses.
pub fn runs_are_meant()
    ensures runs { RunsAreMeant }
{}

/// The text of each cover is the one that the source means: the texts of the runs by its meaning,
/// and the report on the walks of those that returned or exited. And where the source is accepted
/// and source and inputs are there, nothing but the folder, memory, too many runs or too great a
/// count ends a cover early.
///
/// It does nothing: a caller gets its clauses.
pub fn covers_are_meant()
    ensures text { CoversAreMeant }
    ensures ready { ReadyIsCovered }
{}

/// Runs add up in files: data that stand for runs of a source, with those of one more run or with
/// other such data merged into them, stand for all of these runs. So `run` leaves them behind a run
/// that returned or exited, and leaves them alone behind another; and its output and ending are
/// those that the source means. And where all that they read is there, nothing but the outside,
/// memory, too many runs or too great a count keeps `run` and `merge` from that.
///
/// It does nothing: a caller gets its clauses.
pub fn files_add_up()
    ensures runs { RunsAddUp }
    ensures kept { RunsAreKept }
    ensures open { OpenRunsAreMeant }
    ensures ready { ReadyIsRun }
    ensures merges { MergesAddUp }
    ensures merged { ReadyIsMerged }
{}

/// The report on notes of a source and data that stand for runs of it is the report on these runs;
/// without data it is the report on none. And where all that it reads is there, nothing but the
/// folder and memory keeps `report` from that.
///
/// It does nothing: a caller gets its clauses.
pub fn reports_are_meant()
    ensures reports { ReportsAreMeant }
    ensures reported { ReadyIsReported }
{}
