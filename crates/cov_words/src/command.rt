//! Commands, and why words are none.

use clap::error::ErrorKind;

/// A command, with what its words give it.
#[derive(Debug, Drop)]
pub enum Command {
    /// `cover [--turns N] [--path-limit N] SRC IN..`: the turns of each run, the most prime paths
    /// of a function that are listed, the source's name, and the names of one or more inputs.
    Cover(u64, u32, String, Vec<String>),
    /// `build [--plain] [--path-limit N] SRC`: whether the code is to be plain, the most prime
    /// paths of a function that are listed, and the source's name.
    Build(bool, u32, String),
    /// `run [--turns N] NAME`: the turns of the run, and the name.
    Run(u64, String),
    /// `report NAME`: the name.
    Report(String),
    /// `merge A B OUT`: the names of both data files, and of the one that is made.
    Merge(String, String, String),
    /// `make N`: how many functions the made source has beside `main`.
    Make(u32),
}

/// Why words are no command, where none of them asks for condition coverage. The earlier fault
/// comes first.
#[derive(Clone, Copy, Debug, PartialEq, Eq)]
pub enum UsageFault {
    /// There are no words.
    NoCommand,
    /// The first word names no command.
    UnknownCommand,
    /// `clap` refuses the words behind the command's name.
    Words(ErrorKind),
    /// A number isn't one or more decimal digits, or is out of its range.
    BadNumber,
    /// The source's name doesn't end in `.c` with a byte before.
    BadName,
}

/// Why words are no command.
#[derive(Clone, Copy, Debug, PartialEq, Eq)]
pub enum WordsFault {
    /// A word asks for condition coverage, which is left out.
    ConditionCoverage,
    /// They have this fault.
    Usage(UsageFault),
}
