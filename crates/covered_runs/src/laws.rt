//! Laws of what runs count. They speak of definitions alone, so that no change of a body proves
//! them again.

ghost use Rattle.covered_runs.specs.Laws.{WordsAreMarks, TalliesAreWhole};
ghost use Rattle.covered_runs.specs.Laws.{WalksGoAlongArcs, ClosedRunsAreCounted};
ghost use Rattle.covered_runs.specs.Laws.{NumbersAreFew};

/// The path words of a function are what the word rules make of what its calls marked, each call
/// with path bits of its own. This holds after any run, however it ends; and what a run counts has
/// the counters and the words of each function, and of no others.
///
/// It does nothing: a caller gets its clauses.
pub fn call_words()
    ensures words { WordsAreMarks }
    ensures whole { TalliesAreWhole }
{}

/// The walks of a run go along arcs of the nets of their functions. Where the run of a unit is
/// closed, the run of its covered code has counted just what these walks passed: each counter is
/// the number of passages of its arc, and the path words of a function are the bits of just those
/// of its prime paths that some walk of it contains. And what it counts by is within the limits of
/// codes.
///
/// It does nothing: a caller gets its clauses.
pub fn walks_counted()
    ensures along { WalksGoAlongArcs }
    ensures closed { ClosedRunsAreCounted }
    ensures few { NumbersAreFew }
{}
