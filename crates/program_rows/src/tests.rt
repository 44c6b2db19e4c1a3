//! Sources that run, and texts that are refused.

use crate::run_text;
use c_grammar::ParseFault;
use c_lower::LowerFault;
use c_tokens::{LeftWord, LexFault};
use c_typing::TypeFault;
use cov_base::{Refusal, SOURCE_LIMIT};
use lower_rows::runs::{RUNS, Row};
use source_graphs::SourceFault;
use stack_ops::{Outcome, Trap};
use std::process::Abort;
use std::test::Fail;

/// Counts the lines and the words of its input.
const WORD_COUNTER: &[u8] = b"#include <stdio.h>

int lines, words;

int blank(int c) {
  switch (c) {
  case ' ':
  case '\\n':
  case '\\t':
    return 1;
  default:
    return 0;
  }
}

void number(int n) {
  if (n >= 10)
    number(n / 10);
  putchar('0' + n % 10);
}

int main(void) {
  int c, inside = 0;
  while ((c = getchar()) != EOF) {
    if (c == '\\n')
      lines++;
    if (blank(c))
      inside = 0;
    else if (!inside) {
      inside = 1;
      words++;
    }
  }
  number(lines);
  putchar(' ');
  number(words);
  putchar('\\n');
  return 0;
}
";

/// Sources as they run on the machine alone: calls within calls, what is put before a trap, and long runs.
const PROGRAMS: [Row; 6] = [
    Row {
        text: WORD_COUNTER,
        input: b"a b\n",
        turns: 1_000_000_000,
        output: b"1 2\n",
        ending: Outcome::Returned(0),
    },
    Row {
        text: WORD_COUNTER,
        input: b"one two\tthree\n\n four \n",
        turns: 1_000_000_000,
        output: b"3 4\n",
        ending: Outcome::Returned(0),
    },
    Row {
        text: b"int main(void) {\nputchar('o');\nreturn 1 / (getchar() + 1);\n}\n",
        input: b"",
        turns: 1_000_000_000,
        output: b"o",
        ending: Outcome::Trapped(Trap::DivideByZero, 3),
    },
    Row {
        text: b"int f(int n) { return n < 2 ? n : f(n - 1) + f(n - 2); }\nint main(void) { return f(20) % 256; }\n",
        input: b"",
        turns: 1_000_000_000,
        output: b"",
        ending: Outcome::Returned(109),
    },
    Row {
        text: b"int a[100];\nint main(void) {\nint i, j, n = 0;\nfor (i = 2; i < 100; i++)\nif (!a[i]) {\nn++;\nfor (j = i * i; j < 100; j += i) a[j] = 1;\n}\nreturn n;\n}\n",
        input: b"",
        turns: 1_000_000_000,
        output: b"",
        ending: Outcome::Returned(25),
    },
    Row {
        text: b"int main(void) { for (;;) putchar('x'); }\n",
        input: b"",
        turns: 3,
        output: b"xxxx",
        ending: Outcome::OutOfTurns,
    },
];

fn assert_run(rt: &(impl AllocGlobal + Abort), row: &Row) {
    assert!(rt; row.text.len() <= SOURCE_LIMIT && row.turns <= 1_000_000_000);
    let Ok(run) = run_text(rt.alloc(), row.text, row.turns, row.input) else {
        panic!(rt; "no run of {:?}", row.text);
    };
    assert_eq!(rt; run.outcome, row.ending, "of {:?}", row.text);
    assert_eq!(rt; run.output.as_slice(), row.output, "of {:?}", row.text);
}

#[test]
fn sources_run_as_they_mean(rt: HostRuntime) {
    for row in &RUNS {
        assert_run(&rt, row);
    }
}

#[test]
fn programs_run_as_they_mean(rt: HostRuntime) {
    for row in &PROGRAMS {
        assert_run(&rt, row);
    }
}

#[test]
fn texts_are_refused_by_their_faults(rt: HostRuntime) {
    let rows: [(&[u8], SourceFault); 5] = [
        (
            b"int main(void) { goto x; }",
            SourceFault::Lex(LexFault::LeftOut(LeftWord::Goto, 17)),
        ),
        (
            b"int main(void) { return 1 2; }",
            SourceFault::Parse(ParseFault::Syntax(26)),
        ),
        (
            b"int main(void) { switch (1) { case 1: case 1: ; } }",
            SourceFault::Types(TypeFault::TwiceCase(38)),
        ),
        (b"", SourceFault::Types(TypeFault::NoMain(0))),
        (
            b"int main(void) { int a[4097]; }",
            SourceFault::Lower(LowerFault::FrameTooLarge(0, 4097)),
        ),
    ];
    for (text, fault) in &rows {
        assert!(rt; text.len() <= SOURCE_LIMIT);
        match run_text(rt.alloc(), text, 10, b"") {
            Err(Refusal::Refused(found)) => assert_eq!(rt; found, *fault, "of {text:?}"),
            _ => panic!(rt; "no fault of {text:?}"),
        }
    }
}
