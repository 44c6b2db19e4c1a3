//! What worked sources count.

use crate::{CountedRun, count_text};
use cov_base::{Refusal, SOURCE_LIMIT};
use covered_code::{CodeFault, covered_code};
use stack_ops::Outcome;
use std::process::Abort;
use std::test::Fail;

/// A source that is run on an input, how it ends, and the path words of its functions, in order.
struct Row {
    text: &'static [u8],
    limit: u32,
    input: &'static [u8],
    ending: Outcome,
    words: &'static [&'static [u64]],
}

const LOOP: &[u8] = b"int main(void) {\nint n = 0;\nwhile (getchar() == 'a')\nn++;\nreturn n;\n}\n";

const EXITS: &[u8] = b"void g(void) { exit(5); }\nvoid f(void) { g(); }\nint main(void) { f(); }\n";

const CALLS: &[u8] =
    b"int f(int n) {\nif (n > 0)\nf(n - 1);\nif (n > 0)\nreturn 1;\nreturn 0;\n}\nint main(void) { return f(1); }\n";

const ROWS: [Row; 6] = [
    Row {
        text: LOOP,
        limit: 10_000,
        input: b"aa",
        ending: Outcome::Returned(2),
        words: &[&[0b11101]],
    },
    Row {
        text: LOOP,
        limit: 10_000,
        input: b"",
        ending: Outcome::Returned(0),
        words: &[&[0b00010]],
    },
    Row {
        text: EXITS,
        limit: 10_000,
        input: b"",
        ending: Outcome::Exited(5),
        words: &[&[0b1], &[0b0], &[0b0]],
    },
    Row {
        text: CALLS,
        limit: 10_000,
        input: b"",
        ending: Outcome::Returned(1),
        words: &[&[0b1001], &[0b1]],
    },
    Row {
        text: CALLS,
        limit: 4,
        input: b"",
        ending: Outcome::Returned(1),
        words: &[&[0b1001], &[0b1]],
    },
    Row {
        text: CALLS,
        limit: 3,
        input: b"",
        ending: Outcome::Returned(1),
        words: &[&[], &[0b1]],
    },
];

fn counted(
    rt: &(impl AllocGlobal + Abort),
    text: &[u8],
    limit: u32,
    input: &[u8],
) -> Result<CountedRun, Refusal<CodeFault>> {
    assert!(rt; text.len() <= SOURCE_LIMIT && limit <= 65_536);
    count_text(rt.alloc(), text, limit, 1_000_000_000, input)
}

fn assert_words(rt: &(impl AllocGlobal + Abort), row: &Row) {
    let Ok(run) = counted(rt, row.text, row.limit, row.input) else {
        panic!(rt; "no run of {:?}", row.text);
    };
    assert_eq!(rt; run.outcome, row.ending, "of {:?}", row.text);
    let mut function = 0u32;
    for words in row.words {
        assert_eq!(rt;
            run.machine.path_words(function),
            *words,
            "of {:?}",
            row.text
        );
        function = function.saturating_add(1);
    }
}

#[test]
fn paths_of_worked_sources_are_marked(rt: HostRuntime) {
    for row in &ROWS {
        assert_words(&rt, row);
    }
}

#[test]
fn loop_on_two_bytes_counts_1_and_2(rt: HostRuntime) {
    let Ok(run) = counted(&rt, LOOP, 10_000, b"aa") else {
        panic!(rt; "no run");
    };
    let counters: [u64; 2] = [1, 2];
    assert_eq!(rt; run.machine.counters(0), counters.as_slice());
}

#[test]
fn notes_have_each_name_with_its_line(rt: HostRuntime) {
    let names: [(&[u8], u32); 2] = [(b"f", 1), (b"main", 8)];
    assert!(rt; CALLS.len() <= SOURCE_LIMIT);
    let Ok(covered) = covered_code(rt.alloc(), CALLS, 10_000) else {
        panic!(rt; "no code");
    };
    assert_eq!(rt; covered.notes.functions.len(), names.len());
    for (function, (name, line)) in covered.notes.functions.iter().zip(&names) {
        assert_eq!(rt; function.name.bytes(), *name);
        assert_eq!(rt; function.line, *line);
    }
}

#[test]
fn text_that_is_no_source_has_no_code(rt: HostRuntime) {
    let found = counted(&rt, b"int main(void) { return 1 2; }", 10, b"");
    assert!(rt; matches!(found, Err(Refusal::Refused(CodeFault::Source(_)))));
}
