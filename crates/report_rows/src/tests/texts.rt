//! The texts of reports.

use super::{Row, data_of, notes_of, report};
use std::process::Abort;
use std::test::Fail;

/// Asserts the report on a program.
fn assert_report(
    rt: &(impl AllocGlobal + Abort),
    runs: u32,
    limit: u32,
    source: &str,
    rows: &[Row<'_>],
    expected: &str,
) -> Result<(), Fail> {
    let Some(notes) = notes_of(rt.alloc(), limit, rows)? else {
        panic!(rt; "no net");
    };
    let data = data_of(rt.alloc(), runs, rows)?;
    match report(rt, "P", source, &notes, &data)? {
        Ok(text) => assert_eq!(rt; text.as_slice(), expected.as_bytes()),
        Err(_) => panic!(rt; "a fault"),
    }
    Ok(())
}

/// The source of a loop on the input's bytes.
const LOOP: &str = "int main(void) {\nint n = 0;\nwhile (getchar() == 'a')\nn++;\nreturn n;\n}\n";

/// Its function, with what runs left of it.
fn counting<'a>(counters: &'a [u64], bits: &'a [u64]) -> Row<'a> {
    Row {
        name: "main",
        blocks: 6,
        arcs: &[
            (0, 2, false),
            (2, 3, false),
            (3, 4, false),
            (3, 5, false),
            (4, 3, false),
            (5, 1, false),
        ],
        lines: &[(2, 1), (2, 2), (3, 3), (4, 4), (5, 5)],
        counters,
        bits,
    }
}

#[test]
fn loop_on_two_bytes_covers_four_paths(rt: HostRuntime) -> Result<(), Fail> {
    let expected = "        -:    0:Source:P.c
        -:    0:Graph:P.gcno
        -:    0:Data:P.gcda
        -:    0:Runs:1
        1:    1:int main(void) {
        1:    2:int n = 0;
        3:    3:while (getchar() == 'a')
        2:    4:n++;
        1:    5:return n;
        -:    6:}
function main called 1 returned 1 exited 0
block 2 count 1 lines 1 2
block 3 count 3 lines 3
block 4 count 2 lines 4
block 5 count 1 lines 5
arc 0-2 fall 1
arc 2-3 fall 1
arc 3-4 fall 2 branch 66%
arc 3-5 jump 1 branch 33%
arc 4-3 jump 2
arc 5-1 jump 1
path covered 2 3 4
path missed 2 3 5
path covered 3 4 3
path covered 4 3 4
path covered 4 3 5
lines 5 of 5
branches 2 of 2
calls 0 of 0
paths 4 of 5
";
    assert_report(&rt, 1, 10_000, LOOP, &[counting(&[1, 2], &[29])], expected)
}

#[test]
fn loop_on_nothing_leaves_its_body_out(rt: HostRuntime) -> Result<(), Fail> {
    let expected = "        -:    0:Source:P.c
        -:    0:Graph:P.gcno
        -:    0:Data:P.gcda
        -:    0:Runs:1
        1:    1:int main(void) {
        1:    2:int n = 0;
        1:    3:while (getchar() == 'a')
    #####:    4:n++;
        1:    5:return n;
        -:    6:}
function main called 1 returned 1 exited 0
block 2 count 1 lines 1 2
block 3 count 1 lines 3
block 4 count 0 lines 4
block 5 count 1 lines 5
arc 0-2 fall 1
arc 2-3 fall 1
arc 3-4 fall 0 branch 0%
arc 3-5 jump 1 branch 100%
arc 4-3 jump 0
arc 5-1 jump 1
path missed 2 3 4
path covered 2 3 5
path missed 3 4 3
path missed 4 3 4
path missed 4 3 5
lines 4 of 5
branches 1 of 2
calls 0 of 0
paths 1 of 5
";
    assert_report(&rt, 1, 10_000, LOOP, &[counting(&[1, 0], &[2])], expected)
}

#[test]
fn before_the_first_run_no_block_was_entered(rt: HostRuntime) -> Result<(), Fail> {
    let expected = "        -:    0:Source:P.c
        -:    0:Graph:P.gcno
        -:    0:Data:P.gcda
        -:    0:Runs:0
    #####:    1:int main(void) {
    #####:    2:int n = 0;
    #####:    3:while (getchar() == 'a')
    #####:    4:n++;
    #####:    5:return n;
        -:    6:}
function main called 0 returned 0 exited 0
block 2 count 0 lines 1 2
block 3 count 0 lines 3
block 4 count 0 lines 4
block 5 count 0 lines 5
arc 0-2 fall 0
arc 2-3 fall 0
arc 3-4 fall 0 branch never
arc 3-5 jump 0 branch never
arc 4-3 jump 0
arc 5-1 jump 0
paths more than 4
lines 0 of 5
branches 0 of 2
calls 0 of 0
paths 0 of 0
";
    assert_report(&rt, 0, 4, LOOP, &[counting(&[0, 0], &[])], expected)
}

#[test]
fn early_exit_closes_each_walk(rt: HostRuntime) -> Result<(), Fail> {
    let source = "void g(void) { exit(5); }\nvoid f(void) { g(); }\nint main(void) { f(); }\n";
    let calling: &[(u32, u32, bool)] = &[(0, 2, false), (2, 1, true), (2, 3, false), (3, 1, false)];
    let rows: &[Row<'_>] = &[
        Row {
            name: "g",
            blocks: 3,
            arcs: &[(0, 2, false), (2, 1, true)],
            lines: &[(2, 1)],
            counters: &[1],
            bits: &[1],
        },
        Row {
            name: "f",
            blocks: 4,
            arcs: calling,
            lines: &[(2, 2), (3, 2)],
            counters: &[1, 0],
            bits: &[0],
        },
        Row {
            name: "main",
            blocks: 4,
            arcs: calling,
            lines: &[(2, 3), (3, 3)],
            counters: &[1, 0],
            bits: &[0],
        },
    ];
    let expected = "        -:    0:Source:P.c
        -:    0:Graph:P.gcno
        -:    0:Data:P.gcda
        -:    0:Runs:1
        1:    1:void g(void) { exit(5); }
        1:    2:void f(void) { g(); }
        1:    3:int main(void) { f(); }
function g called 1 returned 0 exited 1
block 2 count 1 lines 1
arc 0-2 fall 1
arc 2-1 callexit 1
path covered 2
function f called 1 returned 0 exited 1
block 2 count 1 lines 2
block 3 count 0 lines 2
arc 0-2 fall 1
arc 2-1 callexit 1
arc 2-3 fall 0
arc 3-1 jump 0
path missed 2 3
function main called 1 returned 0 exited 1
block 2 count 1 lines 3
block 3 count 0 lines 3
arc 0-2 fall 1
arc 2-1 callexit 1
arc 2-3 fall 0
arc 3-1 jump 0
path missed 2 3
lines 3 of 3
branches 0 of 0
calls 0 of 2
paths 1 of 3
";
    assert_report(&rt, 1, 10_000, source, rows, expected)
}

/// A function that calls itself once.
fn recursive<'a>(bits: &'a [u64]) -> Row<'a> {
    Row {
        name: "f",
        blocks: 8,
        arcs: &[
            (0, 2, false),
            (2, 3, false),
            (2, 5, false),
            (3, 1, true),
            (3, 4, false),
            (4, 5, false),
            (5, 6, false),
            (5, 7, false),
            (6, 1, false),
            (7, 1, false),
        ],
        lines: &[(2, 1), (2, 2), (3, 3), (4, 3), (5, 4), (6, 5), (7, 6)],
        counters: &[1, 1, 1, 1],
        bits,
    }
}

const RECURSION: &str =
    "int f(int n) {\nif (n > 0)\nf(n - 1);\nif (n > 0)\nreturn 1;\nreturn 0;\n}\nint main(void) { return f(1); }\n";

fn caller<'a>() -> Row<'a> {
    Row {
        name: "main",
        blocks: 4,
        arcs: &[(0, 2, false), (2, 1, true), (2, 3, false), (3, 1, false)],
        lines: &[(2, 8), (3, 8)],
        counters: &[1, 1],
        bits: &[1],
    }
}

#[test]
fn recursive_calls_have_bits_of_their_own(rt: HostRuntime) -> Result<(), Fail> {
    let expected = "        -:    0:Source:P.c
        -:    0:Graph:P.gcno
        -:    0:Data:P.gcda
        -:    0:Runs:1
        2:    1:int f(int n) {
        2:    2:if (n > 0)
        1:    3:f(n - 1);
        2:    4:if (n > 0)
        1:    5:return 1;
        1:    6:return 0;
        -:    7:}
        1:    8:int main(void) { return f(1); }
function f called 2 returned 2 exited 0
block 2 count 2 lines 1 2
block 3 count 1 lines 3
block 4 count 1 lines 3
block 5 count 2 lines 4
block 6 count 1 lines 5
block 7 count 1 lines 6
arc 0-2 fall 2
arc 2-3 fall 1 branch 50%
arc 2-5 jump 1 branch 50%
arc 3-1 callexit 0
arc 3-4 fall 1
arc 4-5 fall 1
arc 5-6 fall 1 branch 50%
arc 5-7 jump 1 branch 50%
arc 6-1 jump 1
arc 7-1 jump 1
path covered 2 3 4 5 6
path missed 2 3 4 5 7
path missed 2 5 6
path covered 2 5 7
function main called 1 returned 1 exited 0
block 2 count 1 lines 8
block 3 count 1 lines 8
arc 0-2 fall 1
arc 2-1 callexit 0
arc 2-3 fall 1
arc 3-1 jump 1
path covered 2 3
lines 7 of 7
branches 4 of 4
calls 2 of 2
paths 3 of 5
";
    assert_report(&rt, 1, 4, RECURSION, &[recursive(&[9]), caller()], expected)
}

#[test]
fn paths_above_the_limit_are_not_listed(rt: HostRuntime) -> Result<(), Fail> {
    let Some(notes) = notes_of(rt.alloc(), 3, &[recursive(&[]), caller()])? else {
        panic!(rt; "no net");
    };
    let data = data_of(rt.alloc(), 1, &[recursive(&[]), caller()])?;
    match report(&rt, "P", RECURSION, &notes, &data)? {
        Ok(text) => {
            let more =
                b"path covered 2 3\nlines 7 of 7\nbranches 4 of 4\ncalls 2 of 2\npaths 1 of 1\n";
            assert!(rt; text.ends_with(more));
        }
        Err(_) => panic!(rt; "a fault"),
    }
    Ok(())
}

#[test]
fn one_line_without_newline(rt: HostRuntime) -> Result<(), Fail> {
    let row = Row {
        name: "main",
        blocks: 3,
        arcs: &[(0, 2, false), (2, 1, false)],
        lines: &[(2, 1)],
        counters: &[1],
        bits: &[1],
    };
    let expected = "        -:    0:Source:P.c
        -:    0:Graph:P.gcno
        -:    0:Data:P.gcda
        -:    0:Runs:1
        1:    1:int main(void) {}
function main called 1 returned 1 exited 0
block 2 count 1 lines 1
arc 0-2 fall 1
arc 2-1 jump 1
path covered 2
lines 1 of 1
branches 0 of 0
calls 0 of 0
paths 1 of 1
";
    assert_report(&rt, 1, 10_000, "int main(void) {}", &[row], expected)
}
