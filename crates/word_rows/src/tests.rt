//! Each form of each command, and each refusal, told as the answer's `Debug` writes it.

use crate::is_command;
use cov_words::read_words;
use std::alloc::{AllocError, Global};
use std::process::Abort;
use std::test::Fail;

/// The words of a line, split at blanks.
fn words_of(alloc: Global, line: &str) -> Result<Vec<String>, AllocError> {
    let mut words = Vec::new(alloc);
    for word in line.split_whitespace() {
        words.push(String::from_str(alloc, word)?)?;
    }
    Ok(words)
}

/// Asserts what the words of each line say.
fn assert_read(rt: &(impl AllocGlobal + Abort), rows: &[(&str, &str)]) -> Result<(), Fail> {
    for (line, expected) in rows {
        let words = words_of(rt.alloc(), line)?;
        let answer = read_words(rt.alloc(), &words);
        let told = format!(in rt.alloc(); "{answer:?}")?;
        assert_eq!(rt; told.as_str(), *expected, "at {line}");
        let known = is_command(rt.alloc(), &words);
        assert!(rt; known == Ok(told.starts_with("Ok")), "at {line}");
    }
    Ok(())
}

#[test]
fn faults_come_in_their_order(rt: HostRuntime) -> Result<(), Fail> {
    assert_read(
        &rt,
        &[
            ("", "Err(Refused(Usage(NoCommand)))"),
            ("frob --conditions", "Err(Refused(ConditionCoverage))"),
            ("build --conditions P.c", "Err(Refused(ConditionCoverage))"),
            (
                "build -- -fcondition-coverage",
                "Err(Refused(ConditionCoverage))",
            ),
            ("frob", "Err(Refused(Usage(UnknownCommand)))"),
            ("--turns 5 run P", "Err(Refused(Usage(UnknownCommand)))"),
            (
                "build --path-limit x --what P",
                "Err(Refused(Usage(Words(UnknownArgument))))",
            ),
            ("build --path-limit x P", "Err(Refused(Usage(BadNumber)))"),
            ("build P", "Err(Refused(Usage(BadName)))"),
            (
                "cover --turns 1 --path-limit x P in",
                "Err(Refused(Usage(BadNumber)))",
            ),
        ],
    )
}

#[test]
fn cover_takes_options_a_source_and_inputs(rt: HostRuntime) -> Result<(), Fail> {
    assert_read(
        &rt,
        &[
            (
                "cover P.c aa.txt",
                "Ok(Cover(1000000000, 10000, \"P.c\", [\"aa.txt\"]))",
            ),
            (
                "cover --turns 5 --path-limit 0 P.c a b",
                "Ok(Cover(5, 0, \"P.c\", [\"a\", \"b\"]))",
            ),
            (
                "cover P.c a --turns=7 b",
                "Ok(Cover(7, 10000, \"P.c\", [\"a\", \"b\"]))",
            ),
            (
                "cover P.c -- --turns 7",
                "Ok(Cover(1000000000, 10000, \"P.c\", [\"--turns\", \"7\"]))",
            ),
            (
                "cover P.c",
                "Err(Refused(Usage(Words(MissingRequiredArgument))))",
            ),
            (
                "cover",
                "Err(Refused(Usage(Words(MissingRequiredArgument))))",
            ),
            ("cover P in", "Err(Refused(Usage(BadName)))"),
        ],
    )
}

#[test]
fn build_takes_plain_and_a_path_limit(rt: HostRuntime) -> Result<(), Fail> {
    assert_read(
        &rt,
        &[
            ("build P.c", "Ok(Build(false, 10000, \"P.c\"))"),
            ("build --plain P.c", "Ok(Build(true, 10000, \"P.c\"))"),
            (
                "build P.c --plain --path-limit 65536",
                "Ok(Build(true, 65536, \"P.c\"))",
            ),
            (
                "build --path-limit 65537 P.c",
                "Err(Refused(Usage(BadNumber)))",
            ),
            ("build x.c", "Ok(Build(false, 10000, \"x.c\"))"),
            ("build .c", "Err(Refused(Usage(BadName)))"),
            ("build --plain P", "Err(Refused(Usage(BadName)))"),
            (
                "build P.c Q.c",
                "Err(Refused(Usage(Words(UnknownArgument))))",
            ),
            (
                "build --plain --plain P.c",
                "Err(Refused(Usage(Words(ArgumentConflict))))",
            ),
            (
                "build --plain=yes P.c",
                "Err(Refused(Usage(Words(TooManyValues))))",
            ),
            (
                "build --turns 5 P.c",
                "Err(Refused(Usage(Words(UnknownArgument))))",
            ),
            (
                "build --help P.c",
                "Err(Refused(Usage(Words(UnknownArgument))))",
            ),
            (
                "build -V P.c",
                "Err(Refused(Usage(Words(UnknownArgument))))",
            ),
        ],
    )
}

#[test]
fn run_takes_turns_and_a_name(rt: HostRuntime) -> Result<(), Fail> {
    assert_read(
        &rt,
        &[
            ("run P", "Ok(Run(1000000000, \"P\"))"),
            ("run --turns 0 P", "Ok(Run(0, \"P\"))"),
            ("run --turns 007 P", "Ok(Run(7, \"P\"))"),
            (
                "run --turns 1099511627776 P",
                "Ok(Run(1099511627776, \"P\"))",
            ),
            (
                "run --turns 1099511627777 P",
                "Err(Refused(Usage(BadNumber)))",
            ),
            (
                "run --turns 99999999999999999999 P",
                "Err(Refused(Usage(BadNumber)))",
            ),
            ("run --turns x P", "Err(Refused(Usage(BadNumber)))"),
            ("run --turns +5 P", "Err(Refused(Usage(BadNumber)))"),
            ("run --turns= P", "Err(Refused(Usage(BadNumber)))"),
            (
                "run --turns P",
                "Err(Refused(Usage(Words(MissingRequiredArgument))))",
            ),
            ("run P --turns", "Err(Refused(Usage(Words(InvalidValue))))"),
            (
                "run --turns 1 --turns 2 P",
                "Err(Refused(Usage(Words(ArgumentConflict))))",
            ),
            ("run -- --turns", "Ok(Run(1000000000, \"--turns\"))"),
        ],
    )
}

#[test]
fn others_take_names_or_a_number(rt: HostRuntime) -> Result<(), Fail> {
    assert_read(
        &rt,
        &[
            ("report P", "Ok(Report(\"P\"))"),
            (
                "report",
                "Err(Refused(Usage(Words(MissingRequiredArgument))))",
            ),
            ("merge A B O", "Ok(Merge(\"A\", \"B\", \"O\"))"),
            (
                "merge P P",
                "Err(Refused(Usage(Words(MissingRequiredArgument))))",
            ),
            (
                "merge A B C D",
                "Err(Refused(Usage(Words(UnknownArgument))))",
            ),
            ("make 1", "Ok(Make(1))"),
            ("make 002", "Ok(Make(2))"),
            ("make 400", "Ok(Make(400))"),
            ("make 0", "Err(Refused(Usage(BadNumber)))"),
            ("make 401", "Err(Refused(Usage(BadNumber)))"),
            ("make two", "Err(Refused(Usage(BadNumber)))"),
            ("make -1", "Err(Refused(Usage(Words(UnknownArgument))))"),
        ],
    )
}
