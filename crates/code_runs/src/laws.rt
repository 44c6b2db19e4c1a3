//! Laws of codes and their runs, each as the contract of a function that does nothing.

ghost use Rattle.code_runs.specs.Laws.{
  CheckedIsSound,
  FirstFits,
  FitsStay,
  NeverStuck,
  RunsGetLighter,
  RunsEnd,
  OneRun,
  CountersAreMarks,
};

/// A code that breaks no rule is never stuck: each point of its runs has what its instruction
/// needs.
pub fn never_stuck()
    ensures sound { CheckedIsSound }
    ensures first { FirstFits }
    ensures stay { FitsStay }
    ensures stuck { NeverStuck }
{}

/// Each run ends, in one way only, since each turn and each instruction leaves less to do.
pub fn runs_end()
    ensures lighter { RunsGetLighter }
    ensures ends { RunsEnd }
    ensures one { OneRun }
{}

/// Counters are what the calls marked.
pub fn counters()
    ensures { CountersAreMarks }
{}
