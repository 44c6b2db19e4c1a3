//! Laws of the data of runs. They speak of definitions alone, so that no change of a body proves
//! them again.

ghost use Rattle.run_counts.specs.Laws.{FilesHaveFew, RunsHaveFew, FirstIsItself};

/// Data that can stand in a file, and the data of any run, have so few functions and counters that
/// numbers of 32 bits name them. Merged into the data of no run, that of a run is itself, where no
/// count is above the limit.
///
/// It does nothing: a caller gets its clauses.
pub fn counts_of_runs()
    ensures files { FilesHaveFew }
    ensures few { RunsHaveFew }
    ensures first { FirstIsItself }
{}
