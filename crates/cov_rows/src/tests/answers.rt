//! The exit statuses of all answers, and their lines.

use clap::error::ErrorKind;
use code_file::CodeFault;
use cov_outside::MemSink;
use cov_program::{End, SourceFault, status_of, tell};
use cov_words::UsageFault;
use gcov_records::FileFault;
use stack_ops::Trap;
use std::alloc::Global;
use std::process::Abort;
use std::str;
use std::test::Fail;

/// Answers, each with its status and its line.
type Told<'a> = (End, u8, &'a str);

const USAGE: &str =
    "cov: usage: cover SRC IN.. | build SRC | run NAME | report NAME | merge A B OUT | make N\n";

/// Asserts statuses and lines.
fn assert_told(rt: &(impl AllocGlobal + Abort), rows: &[Told<'_>]) -> Result<(), Fail> {
    let alloc = rt.alloc();
    for (end, status, line) in rows {
        assert_eq!(rt; status_of(end), *status, "of {end:?}");
        let mut err = MemSink::new(alloc, Vec::new(alloc));
        assert_eq!(rt; tell(end, &mut err), Ok(()), "of {end:?}");
        assert_eq!(rt; str::from_utf8(err.bytes())?, *line, "of {end:?}");
    }
    Ok(())
}

#[test]
fn endings_of_runs_have_their_statuses(rt: HostRuntime) -> Result<(), Fail> {
    assert_told(
        &rt,
        &[
            (End::Done, 0, ""),
            (End::Ran(0), 0, ""),
            (End::Ran(255), 255, ""),
            (End::Ran(121), 121, ""),
            (
                End::Trapped(Trap::Overflow, 3),
                121,
                "cov: trapped overflow at line 3\n",
            ),
            (
                End::Trapped(Trap::DivideByZero, 10),
                121,
                "cov: trapped divide by zero at line 10\n",
            ),
            (
                End::Trapped(Trap::ShiftRange, 0),
                121,
                "cov: trapped shift range at line 0\n",
            ),
            (
                End::Trapped(Trap::BadIndex, 4_294_967_295),
                121,
                "cov: trapped bad index at line 4294967295\n",
            ),
            (
                End::Trapped(Trap::CallDepth, 1),
                121,
                "cov: trapped call depth at line 1\n",
            ),
            (
                End::Trapped(Trap::OutputLimit, 2),
                121,
                "cov: trapped output limit at line 2\n",
            ),
            (End::OutOfTurns(1), 122, "cov: out of turns after 1\n"),
            (
                End::OutOfTurns(1_099_511_627_776),
                122,
                "cov: out of turns after 1099511627776\n",
            ),
            (End::NoMemory, 123, "cov: no memory\n"),
        ],
    )
}

#[test]
fn words_and_sources_that_are_refused_have_lines(rt: HostRuntime) -> Result<(), Fail> {
    let refused = source_graphs::SourceFault::Lex(c_tokens::LexFault::OpenComment(7));
    assert_told(
        &rt,
        &[
            (End::Usage(UsageFault::NoCommand), 120, USAGE),
            (End::Usage(UsageFault::UnknownCommand), 120, USAGE),
            (
                End::Usage(UsageFault::Words(ErrorKind::InvalidValue)),
                120,
                USAGE,
            ),
            (End::Usage(UsageFault::BadNumber), 120, USAGE),
            (End::Usage(UsageFault::BadName), 120, USAGE),
            (
                End::ConditionCoverage,
                120,
                "cov: condition coverage is left out\n",
            ),
            (
                End::SourceRefused(SourceFault::NotAccepted(refused)),
                120,
                "cov: source: open comment at byte 7\n",
            ),
            (
                End::SourceRefused(SourceFault::TablesTooLarge(1_048_577)),
                120,
                "cov: source: tables too large 1048577\n",
            ),
        ],
    )
}

#[test]
fn files_and_faults_of_the_outside_have_lines(rt: HostRuntime) -> Result<(), Fail> {
    let alloc = rt.alloc();
    assert_told(
        &rt,
        &[
            (
                End::Missing(String::from_str(alloc, "X.c")?),
                120,
                "cov: missing X.c\n",
            ),
            (
                End::TooLong(String::from_str(alloc, "input")?),
                120,
                "cov: too long input\n",
            ),
            (
                End::BadCode(CodeFault::Short(74)),
                120,
                "cov: bad code short at byte 74\n",
            ),
            (
                End::BadCode(CodeFault::BackJump(640)),
                120,
                "cov: bad code back jump at byte 640\n",
            ),
            (
                End::BadNotes(FileFault::Order(28)),
                120,
                "cov: bad notes order at byte 28\n",
            ),
            (
                End::BadData(FileFault::Number(52)),
                120,
                "cov: bad data number at byte 52\n",
            ),
            (End::ReadFault, 120, "cov: read fault\n"),
            (End::WriteFault, 120, "cov: write fault\n"),
            (End::FolderFault, 120, "cov: folder fault\n"),
        ],
    )
}

#[test]
fn counts_that_do_not_fit_have_lines(rt: HostRuntime) -> Result<(), Fail> {
    assert_told(
        &rt,
        &[
            (End::OtherBuild(1, 20), 120, "cov: other build 1 20\n"),
            (
                End::SourceChanged(4_294_967_295, 0),
                120,
                "cov: source changed 4294967295 0\n",
            ),
            (End::OtherShape(3), 120, "cov: other shape of function 3\n"),
            (
                End::NotAFlow(1, 4),
                120,
                "cov: no flow in function 1 at arc 4\n",
            ),
            (End::RunsPassed, 120, "cov: runs passed\n"),
            (
                End::CountPassed(2, 0),
                120,
                "cov: count passed in function 2 at counter 0\n",
            ),
        ],
    )
}

/// What is told of an answer where this call of the error output fails.
fn told(alloc: Global, end: &End, fails: u64) -> Result<(bool, String), Fail> {
    let mut err = MemSink::new(alloc, [fails].to_vec(alloc)?);
    let whole = tell(end, &mut err).is_ok();
    Ok((
        whole,
        String::from_str(alloc, str::from_utf8(err.bytes())?)?,
    ))
}

#[test]
fn a_line_is_cut_where_the_error_output_fails(rt: HostRuntime) -> Result<(), Fail> {
    let line = "cov: trapped bad index at line 12\n";
    for fails in 0..9 {
        let (whole, text) = told(rt.alloc(), &End::Trapped(Trap::BadIndex, 12), fails)?;
        assert!(rt; line.starts_with(text.as_str()), "{text:?}");
        assert_eq!(rt; whole, text.as_str() == line, "at call {fails}");
        assert!(rt; fails > 0 || text.is_empty(), "at call {fails}");
    }
    Ok(())
}
