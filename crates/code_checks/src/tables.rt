//! The table of a function.

ghost use Rattle.std.specs.Prelude.{
  ◌≡◌,
  ◌+◌,
  ◌*◌,
  ◌<◌,
  ◌≤◌,
  ◌&&◌,
  ◌^◌,
  nat_le,
  nat_lt,
  drop,
  length,
  None,
  slice_index_or,
};
ghost use Rattle.code_runs.specs.Tables as rules;
ghost use Rattle.code_runs.specs.CodeChecks.{of_table};
ghost use Rattle.code_checks.specs.Seen as seen;
ghost use Rattle.code_checks.specs.Rows as spec;

use crate::rules::{Rule, RuleFault};

/// How many words hold a bit for each of so many paths.
pub fn words_in(paths: u32) -> u64
    ensures value { result ≡ rules.words_in paths }
    ensures few { result < 2 ^ 32 }
{
    (u64::from(paths) + 63) / 64
}

/// The first place where the table isn't the begin row and so many rows more, none with more
/// entries than there are words: a table of another length has this length as its place.
pub fn layout_fault(paths: u32, passes: u32, table: &[u64]) -> Option<RuleFault>
    ensures { seen.found result ≡ of_table (rules.layout_fault paths passes table.now) }
{
    if paths == 0 {
        return end_fault(table, 0);
    }
    let words = words_in(paths);
    match behind_row(3, words, table, 0) {
        Ok(at) => rows_fault(words, passes, table, at),
        Err(fault) => Some(fault),
    }
}

fn rows_fault(words: u64, passes: u32, table: &[u64], start: usize) -> Option<RuleFault>
    requires words { words < 2 ^ 32 }
    requires start { start ≤ length table.now }
    ensures { seen.found result
        ≡ of_table (rules.rows_fault words passes start (drop start table.now)) }
{
    let mut at = start;
    for _ in 0..passes {
        match behind_row(4, words, table, at) {
            Ok(next) => at = next,
            Err(fault) => return Some(fault),
        }
    }
    end_fault(table, at)
}

/// The place behind the row at this place, whose entries have so many numbers.
fn behind_row(size: usize, words: u64, table: &[u64], at: usize) -> Result<usize, RuleFault>
    requires size { size ≤ 4 }
    requires words { words < 2 ^ 32 }
    requires within { at ≤ length table.now }
    ensures { spec.HasRow size words at table.now result }
{
    if at == table.len() {
        return Err(row_fault(at));
    }
    let entries = table[at];
    if entries > words {
        return Err(RuleFault {
            place: at as u64,
            rule: Rule::Field,
        });
    }
    let taken = size * entries as usize;
    if taken > table.len() - at - 1 {
        return Err(row_fault(table.len()));
    }
    Ok(at + 1 + taken)
}

fn row_fault(at: usize) -> RuleFault
    ensures { result ≡ record { place = at; rule = Rule.Row } }
{
    RuleFault {
        place: at as u64,
        rule: Rule::Row,
    }
}

/// Nothing is left behind the last row.
fn end_fault(table: &[u64], at: usize) -> Option<RuleFault>
    requires { at ≤ length table.now }
    ensures { seen.found result ≡ of_table (rules.ends_there at (drop at table.now)) }
{
    if at < table.len() {
        return Some(row_fault(table.len()));
    }
    None
}

/// The place of the first entry of a table whose word doesn't ascend or isn't there.
pub fn table_word(paths: u32, passes: u32, table: &[u64]) -> Option<u64>
    requires { rules.layout_fault paths passes table.now ≡ None }
    ensures { result ≡ rules.table_word paths passes table.now }
{
    if paths == 0 {
        return None;
    }
    let words = words_in(paths);
    if let Some(at) = word_fault(3, words, table, 0) {
        return Some(at);
    }
    rows_word(words, passes, table, row_end(3, table, 0))
}

fn rows_word(words: u64, passes: u32, table: &[u64], start: usize) -> Option<u64>
    requires words { words < 2 ^ 32 }
    requires start { start ≤ length table.now }
    requires layout { rules.rows_fault words passes start (drop start table.now) ≡ None }
    ensures { result ≡ rules.rows_word words passes start (drop start table.now) }
{
    let mut at = start;
    for _ in 0..passes {
        if let Some(found) = word_fault(4, words, table, at) {
            return Some(found);
        }
        at = row_end(4, table, at);
    }
    None
}

/// The place behind a row that is there.
fn row_end(size: usize, table: &[u64], at: usize) -> usize
    requires { spec.IsRow size table.now at }
    ensures { result ≡ at + 1 + size * slice_index_or table.now at 0 }
{
    at + 1 + size * table[at] as usize
}

/// The place of the first entry of a row whose word doesn't ascend or isn't there.
fn word_fault(size: usize, words: u64, table: &[u64], at: usize) -> Option<u64>
    requires row { spec.IsRow size table.now at }
    requires words { words < 2 ^ 32 }
    ensures { result ≡ rules.word_fault size words (slice_index_or table.now at 0) 0 (at + 1)
        (drop (at + 1) table.now) }
{
    let mut least = 0;
    let mut entry = at + 1;
    for _ in 0..table[at] {
        let word = table[entry];
        if !is_next(least, word, words) {
            return Some(entry as u64);
        }
        least = word + 1;
        entry += size;
    }
    None
}

fn is_next(least: u64, word: u64, words: u64) -> bool
    ensures { result ≡ (nat_le least word && nat_lt word words) }
{
    least <= word && word < words
}
