//! Laws of the command `run`. They speak of definitions alone, so that no change of a body proves
//! them again.

ghost use Rattle.run_command.specs.Laws.{FirstIsKept, ReadyIsRun};

/// Where the code of a program and standard input are no larger than files may be, and the answer
/// blames nothing outside, the program is run on the whole input and its whole output is written.
/// What a first run counts is then all that the program's data tell, where no count is above the
/// limit.
///
/// It does nothing: a caller gets its clauses.
pub fn runs_where_nothing_fails()
    ensures ready { ReadyIsRun }
    ensures first { FirstIsKept }
{}
