//! What the matches of a command hold: numbers, names, whether an option stands.

ghost use Rattle.std.specs.Prelude.{◌≡◌, ◌≤◌, map, string_bytes, IfOk, IfSome};
ghost use Rattle.clap.specs.Words.{found_of, rows_of};
ghost use Rattle.cov_words.specs.Values as spec;

use crate::numbers::number_in;
use clap::ArgMatches;
use cov_base::DEFAULT_TURNS;
use std::alloc::{AllocError, Global};

/// The most turns that a run may be given.
const TURN_LIMIT: u64 = 1_099_511_627_776;

/// The most prime paths of a function that may be listed.
const PATH_LIMIT: u32 = 65_536;

/// The most prime paths of a function that are listed, where no limit is given.
const DEFAULT_PATHS: u32 = 10_000;

/// The most functions of a made source beside `main`.
const MADE_LIMIT: u32 = 400;

/// The word that was given, or no text.
fn text_in<'a>(matches: &ArgMatches<'a>, id: &str) -> &'a str
    ensures { result.now ≡ spec.text_in id.now (rows_of (found_of matches.now)) }
{
    match matches.get_str(id) {
        Some(word) => word,
        None => "",
    }
}

/// The word that was given, as an own text.
pub fn name_in(alloc: Global, matches: &ArgMatches<'_>, id: &str) -> Result<String, AllocError>
    ensures { IfOk result (λ name. string_bytes name
        ≡ spec.text_in id.now (rows_of (found_of matches.now))) }
{
    String::from_str(alloc, text_in(matches, id))
}

/// The words as own texts.
fn owned(alloc: Global, words: &[&str]) -> Result<Vec<String>, AllocError>
    ensures { IfOk result (λ names. map string_bytes names.items ≡ map (λ s. s.now) words.now) }
{
    let mut names = Vec::new(alloc);
    for word in words {
        names.push(String::from_str(alloc, word)?)?;
    }
    Ok(names)
}

/// The words that were given, as own texts.
pub fn names_in(
    alloc: Global,
    matches: &ArgMatches<'_>,
    id: &str,
) -> Result<Vec<String>, AllocError>
    ensures { IfOk result (λ names. map string_bytes names.items
        ≡ spec.texts_in id.now (rows_of (found_of matches.now))) }
{
    match matches.get_strs(id) {
        Some(words) => owned(alloc, words),
        None => Ok(Vec::new(alloc)),
    }
}

/// Whether the option stands.
pub fn stands_in(matches: &ArgMatches<'_>, id: &str) -> bool
    ensures { result ≡ spec.stands_in id.now (rows_of (found_of matches.now)) }
{
    text_in(matches, id) == "true"
}

/// The number that was given, or this one where none was; none where the word is no number up to
/// `most`.
fn number_or(matches: &ArgMatches<'_>, id: &str, most: u64, other: u64) -> Option<u64>
    ensures number { result ≡ spec.number_or id.now most other (rows_of (found_of matches.now)) }
    ensures most { other ≤ most → IfSome result (λ n. n ≤ most) }
{
    match matches.get_str(id) {
        Some(word) => number_in(0, most, word),
        None => Some(other),
    }
}

/// The turns of a run.
pub fn turns_in(matches: &ArgMatches<'_>) -> Option<u64>
    ensures { result ≡ spec.turns_in (rows_of (found_of matches.now)) }
{
    number_or(matches, "turns", TURN_LIMIT, DEFAULT_TURNS)
}

/// The most prime paths of a function that are listed.
pub fn path_limit_in(matches: &ArgMatches<'_>) -> Option<u32>
    ensures { result ≡ spec.path_limit_in (rows_of (found_of matches.now)) }
{
    let limit = number_or(
        matches,
        "path-limit",
        u64::from(PATH_LIMIT),
        u64::from(DEFAULT_PATHS),
    )?;
    Some(limit as u32)
}

/// How many functions a made source has beside `main`.
pub fn made_in(matches: &ArgMatches<'_>) -> Option<u32>
    ensures { result ≡ spec.made_in (rows_of (found_of matches.now)) }
{
    let count = number_in(1, u64::from(MADE_LIMIT), text_in(matches, "N"))?;
    Some(count as u32)
}

/// Whether the text ends in `.c` with a byte before.
pub fn is_source_name(name: &str) -> bool
    ensures { result ≡ spec.is_source_name name.now }
{
    let bytes = name.as_bytes();
    bytes.len() > 2 && bytes.ends_with(b".c")
}
