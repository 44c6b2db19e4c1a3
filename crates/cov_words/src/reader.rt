//! The command that words ask for, by the words that `clap` matches.

ghost use Rattle.std.specs.Prelude.{◌≡◌, codes, map, string_bytes};
ghost use Rattle.std.specs.List.{list_any};
ghost use Rattle.clap.specs.Words.{found_of, rows_of};
ghost use Rattle.cov_words.specs.Syntax.{app_for};
ghost use Rattle.cov_words.specs.Values.{text_in};
ghost use Rattle.cov_words.specs.Reading as spec;

use crate::command::{Command, UsageFault, WordsFault};
use crate::syntax::{CommandName, named, syntax_of};
use crate::values::{
    is_source_name, made_in, name_in, names_in, path_limit_in, stands_in, turns_in,
};
use clap::ArgMatches;
use clap::error::ErrorKind;
use cov_base::Refusal;
use std::alloc::Global;

/// Reads the words after the program's name. The first is the command's name, and `clap` matches
/// those behind it with the command's options and names. In this order the words are refused where
/// there are none, where one is `-fcondition-coverage` or `--conditions`, where the first names no
/// command, where `clap` refuses those behind it, where a number isn't one or more decimal digits
/// or is out of range, and where the source's name doesn't end in `.c` with a byte before.
pub fn read_words(alloc: Global, words: &[String]) -> Result<Command, Refusal<WordsFault>>
    ensures { spec.Answers (spec.reading (map string_bytes words.now)) result }
{
    let Some((first, _)) = words.split_first() else {
        return Err(refused(UsageFault::NoCommand));
    };
    if wants_conditions(words) {
        return Err(Refusal::Refused(WordsFault::ConditionCoverage));
    }
    let Some(name) = named(first.as_str()) else {
        return Err(refused(UsageFault::UnknownCommand));
    };
    read_as(alloc, name, words)
}

/// Whether a word asks for condition coverage.
fn wants_conditions(words: &[String]) -> bool
    ensures { result ≡ list_any spec.is_conditions (map string_bytes words.now) }
{
    some_conditions(words)
}

fn some_conditions(words: &[String]) -> bool
    ensures { result ≡ list_any (λ word. spec.is_conditions (string_bytes word)) words.now }
{
    words.iter().any(|word| is_conditions(word.as_str()))
}

fn is_conditions(word: &str) -> bool
    ensures { result ≡ spec.is_conditions word.now }
{
    word == "-fcondition-coverage" || word == "--conditions"
}

/// Reads the words of a command, its name first.
fn read_as(
    alloc: Global,
    name: CommandName,
    words: &[String],
) -> Result<Command, Refusal<WordsFault>>
    ensures { spec.Answers (spec.reading_as name (map string_bytes words.now)) result }
{
    match matches_of(alloc, name, words) {
        Ok(matches) => command_of(alloc, name, &matches),
        Err(refusal) => Err(refusal),
    }
}

/// What `clap` matches of the words of a command, its name first.
fn matches_of<'a>(
    alloc: Global,
    name: CommandName,
    words: &'a [String],
) -> Result<ArgMatches<'a>, Refusal<WordsFault>>
    ensures { spec.Matches (app_for name) (map string_bytes words.entry.now) result }
{
    match syntax_of(alloc, name)?.try_get_matches_from(words) {
        Ok(matches) => Ok(matches),
        Err(error) => Err(refusal_of(error.kind())),
    }
}

fn refusal_of(kind: ErrorKind) -> Refusal<WordsFault>
    ensures { spec.IsRefusalOf kind result }
{
    match kind {
        ErrorKind::OutOfMemory => Refusal::NoMemory,
        kind => refused(UsageFault::Words(kind)),
    }
}

fn refused(fault: UsageFault) -> Refusal<WordsFault>
    ensures { result ≡ Refusal.Refused (WordsFault.Usage fault) }
{
    Refusal::Refused(WordsFault::Usage(fault))
}

/// The command, by what was matched.
fn command_of(
    alloc: Global,
    name: CommandName,
    matches: &ArgMatches<'_>,
) -> Result<Command, Refusal<WordsFault>>
    ensures { spec.Answers (spec.reading_by name (rows_of (found_of matches.now))) result }
{
    match name {
        CommandName::Cover => cover_of(alloc, matches),
        CommandName::Build => build_of(alloc, matches),
        CommandName::Run => run_of(alloc, matches),
        CommandName::Report => Ok(Command::Report(name_in(alloc, matches, "NAME")?)),
        CommandName::Merge => merge_of(alloc, matches),
        CommandName::Make => make_of(matches),
    }
}

fn source_of(alloc: Global, matches: &ArgMatches<'_>) -> Result<String, Refusal<WordsFault>>
    ensures { spec.Names (text_in (codes "SRC") (rows_of (found_of matches.now))) result }
{
    let source = name_in(alloc, matches, "SRC")?;
    if is_source_name(source.as_str()) {
        Ok(source)
    } else {
        Err(refused(UsageFault::BadName))
    }
}

fn cover_of(alloc: Global, matches: &ArgMatches<'_>) -> Result<Command, Refusal<WordsFault>>
    ensures { spec.Answers (spec.cover_by (rows_of (found_of matches.now))) result }
{
    let Some(turns) = turns_in(matches) else {
        return Err(refused(UsageFault::BadNumber));
    };
    let Some(limit) = path_limit_in(matches) else {
        return Err(refused(UsageFault::BadNumber));
    };
    let source = source_of(alloc, matches)?;
    let inputs = names_in(alloc, matches, "IN")?;
    Ok(Command::Cover(turns, limit, source, inputs))
}

fn build_of(alloc: Global, matches: &ArgMatches<'_>) -> Result<Command, Refusal<WordsFault>>
    ensures { spec.Answers (spec.build_by (rows_of (found_of matches.now))) result }
{
    let Some(limit) = path_limit_in(matches) else {
        return Err(refused(UsageFault::BadNumber));
    };
    let source = source_of(alloc, matches)?;
    Ok(Command::Build(stands_in(matches, "plain"), limit, source))
}

fn run_of(alloc: Global, matches: &ArgMatches<'_>) -> Result<Command, Refusal<WordsFault>>
    ensures { spec.Answers (spec.run_by (rows_of (found_of matches.now))) result }
{
    let Some(turns) = turns_in(matches) else {
        return Err(refused(UsageFault::BadNumber));
    };
    Ok(Command::Run(turns, name_in(alloc, matches, "NAME")?))
}

fn merge_of(alloc: Global, matches: &ArgMatches<'_>) -> Result<Command, Refusal<WordsFault>>
    ensures { spec.Answers (spec.merge_by (rows_of (found_of matches.now))) result }
{
    let first = name_in(alloc, matches, "A")?;
    let second = name_in(alloc, matches, "B")?;
    let out = name_in(alloc, matches, "OUT")?;
    Ok(Command::Merge(first, second, out))
}

fn make_of(matches: &ArgMatches<'_>) -> Result<Command, Refusal<WordsFault>>
    ensures { spec.Answers (spec.make_by (rows_of (found_of matches.now))) result }
{
    match made_in(matches) {
        Some(count) => Ok(Command::Make(count)),
        None => Err(refused(UsageFault::BadNumber)),
    }
}
