//! The answers of the top call and their exit statuses.

ghost use Rattle.std.specs.Prelude.{◌≡◌};
ghost use Rattle.cov_answers.specs.Answers.{is_silent, status_of};
ghost use Rattle.cov_answers.specs.declared.answers.End.TheVariants as answer;

use code_file::CodeFault;
use cov_base::NoMemory;
use cov_words::UsageFault;
use gcov_records::FileFault;
use stack_ops::Trap;
use std::alloc::{AllocError, AllocFailed};

/// Why a source is refused.
#[derive(Clone, Copy, Debug, PartialEq, Eq)]
pub enum SourceFault {
    /// It isn't an accepted C source: this fault stands in it.
    NotAccepted(source_graphs::SourceFault),
    /// The rows that follow the prime paths of its functions have so many words, which are too
    /// many.
    TablesTooLarge(u64),
}

/// How a command ended.
#[derive(Debug, Drop)]
pub enum End {
    /// It did all that it does.
    Done,
    /// The program that was run returned or exited with this status.
    Ran(u8),
    /// The program that was run stopped at this source line, for this reason.
    Trapped(Trap, u32),
    /// The program that was run took all of so many turns.
    OutOfTurns(u64),
    /// The words are no command.
    Usage(UsageFault),
    /// A word asks for condition coverage, which is left out.
    ConditionCoverage,
    /// The source isn't one that is compiled.
    SourceRefused(SourceFault),
    /// A file of this name that it needs isn't there.
    Missing(String),
    /// The file of this name is longer than its limit.
    TooLong(String),
    /// The code file isn't one that is read.
    BadCode(CodeFault),
    /// The file of notes isn't one that is read.
    BadNotes(FileFault),
    /// The file of data isn't one that is read.
    BadData(FileFault),
    /// Two files are of builds with these stamps, which differ.
    OtherBuild(u32, u32),
    /// The notes have the first stamp, and the source has the second.
    SourceChanged(u32, u32),
    /// This function has another shape in the data than in what they are put together with.
    OtherShape(u32),
    /// The counters of this function make the number on this arc negative.
    NotAFlow(u32, u32),
    /// There would be more than 4,294,967,295 runs.
    RunsPassed,
    /// In this function this counter would be above 2^63 - 1.
    CountPassed(u32, u32),
    /// Standard input couldn't be read to its end.
    ReadFault,
    /// Its text couldn't be written whole.
    WriteFault,
    /// A file couldn't be read or replaced.
    FolderFault,
    /// Memory ran out.
    NoMemory,
}

impl From<AllocError> for End {
    ghost from_gives = { λ _ end. end ≡ answer.NoMemory };

    fn from(_: AllocError) -> End {
        End::NoMemory
    }
}

impl<T: Drop> From<AllocFailed<T>> for End {
    ghost from_gives = { λ _ end. end ≡ answer.NoMemory };

    fn from(_: AllocFailed<T>) -> End {
        End::NoMemory
    }
}

impl From<NoMemory> for End {
    ghost from_gives = { λ _ end. end ≡ answer.NoMemory };

    fn from(_: NoMemory) -> End {
        End::NoMemory
    }
}

/// The exit status of an answer.
pub fn status_of(end: &End) -> u8
    ensures { result ≡ status_of end.now }
{
    match end {
        End::Done => 0,
        End::Ran(status) => *status,
        End::Trapped(_, _) => 121,
        End::OutOfTurns(_) => 122,
        End::NoMemory => 123,
        _ => 120,
    }
}

/// Whether an answer has no line: the command did all that it does, or the program ended by itself.
pub fn is_silent(end: &End) -> bool
    ensures { result ≡ is_silent end.now }
{
    match end {
        End::Done | End::Ran(_) => true,
        _ => false,
    }
}
