//! Laws of what is counted of walks. They speak of definitions alone, so that no change of a body
//! proves them again.

ghost use Rattle.walk_counts.specs.Laws.{WalksCirculate, ClosedRunsGoThrough, RunsStayInside};
ghost use Rattle.walk_counts.specs.Laws.{CountersAddUp, BitsAddUp, RunsAddUp, RunsMerge};
ghost use Rattle.walk_counts.specs.Laws.{AllGoTogether, WalksHaveOneData};
ghost use Rattle.walk_counts.specs.Laws.{FunctionTalliesAreWalks, TalliesAreWalks};
ghost use Rattle.walk_counts.specs.Laws.{ReportsCountPassages, ReportsCountLines, BitsTellPaths};

/// Walks that go through a net from the entry to the exit circulate: each block but these two is
/// left as often as it is entered, and the counters of the arcs off the tree are those of the
/// passages of all arcs. The walks of a closed run go so through the nets of their functions, and
/// those of any run are walks of functions of its unit.
///
/// It does nothing: a caller gets its clauses.
pub fn walks_circulate()
    ensures balance { WalksCirculate }
    ensures closed { ClosedRunsGoThrough }
    ensures inside { RunsStayInside }
{}

/// Runs add up: the counters of walks and further walks are the sums of both, their bits those
/// that either has, and so the data of runs with the data of further runs added are the data of all
/// of them. Only too many runs or too great a count keep data of runs of one program from being
/// merged.
///
/// It does nothing: a caller gets its clauses.
pub fn runs_added()
    ensures counters { CountersAddUp }
    ensures bits { BitsAddUp }
    ensures runs { RunsAddUp }
    ensures merge { RunsMerge }
    ensures together { AllGoTogether }
    ensures one { WalksHaveOneData }
{}

/// The tally of data of walks is just what the walks did: it tells of each arc how often they
/// passed it, and of each prime path within the limit whether some walk contains it. Such data are
/// never refused, of one function or of a program.
///
/// It does nothing: a caller gets its clauses.
pub fn walks_tallied()
    ensures function { FunctionTalliesAreWalks }
    ensures program { TalliesAreWalks }
{}

/// A report on a tally of walks tells what they did: it counts for each arc its passages and for
/// each line the places where a walk comes to it, and its bits tell of each prime path that is
/// listed whether some walk contains it.
///
/// It does nothing: a caller gets its clauses.
pub fn walks_reported()
    ensures arcs { ReportsCountPassages }
    ensures lines { ReportsCountLines }
    ensures paths { BitsTellPaths }
{}
