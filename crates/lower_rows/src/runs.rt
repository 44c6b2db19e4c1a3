//! Sources with an input, the turns that a run may take, and the output and the ending that it comes to.

use stack_ops::{Outcome, Trap};

/// A run of a source.
#[derive(Clone, Copy)]
pub struct Row {
    pub text: &'static [u8],
    pub input: &'static [u8],
    pub turns: u64,
    pub output: &'static [u8],
    pub ending: Outcome,
}

/// Runs of sources, each form of statement, operator, trap and ending among them.
pub const RUNS: [Row; 30] = [
    Row {
        text: b"int main(void) {\nint n = 0;\nwhile (getchar() == 'a')\nn++;\nreturn n;\n}\n",
        input: b"aa",
        turns: 2,
        output: b"",
        ending: Outcome::Returned(2),
    },
    Row {
        text: b"int main(void) {\nint n = 0;\nwhile (getchar() == 'a')\nn++;\nreturn n;\n}\n",
        input: b"aa",
        turns: 1,
        output: b"",
        ending: Outcome::OutOfTurns,
    },
    Row {
        text: b"int main(void) {\nint n = 0;\nwhile (getchar() == 'a')\nn++;\nreturn n;\n}\n",
        input: b"",
        turns: 1_000_000_000,
        output: b"",
        ending: Outcome::Returned(0),
    },
    Row {
        text: b"int main(void) {\nint i = 0;\nwhile (i < 10) i++;\nreturn i;\n}\n",
        input: b"",
        turns: 1_000_000_000,
        output: b"",
        ending: Outcome::Returned(10),
    },
    Row {
        text: b"int main(void) {\nint i, s = 0;\nfor (i = 0; i < 3; i++)\ns += i;\nreturn s;\n}\n",
        input: b"",
        turns: 1_000_000_000,
        output: b"",
        ending: Outcome::Returned(3),
    },
    Row {
        text: b"int main(void) {\nint c = getchar();\nif (c == 'x') return 1; else return 2;\n}\n",
        input: b"x",
        turns: 1_000_000_000,
        output: b"",
        ending: Outcome::Returned(1),
    },
    Row {
        text: b"int main(void) {\nint c = getchar();\nif (c == 'x') return 1; else return 2;\n}\n",
        input: b"y",
        turns: 1_000_000_000,
        output: b"",
        ending: Outcome::Returned(2),
    },
    Row {
        text: b"int main(void) { for (;;) ; }",
        input: b"",
        turns: 3,
        output: b"",
        ending: Outcome::OutOfTurns,
    },
    Row {
        text: b"void g(void) { exit(5); }\nvoid f(void) { g(); }\nint main(void) { f(); }\n",
        input: b"",
        turns: 1_000_000_000,
        output: b"",
        ending: Outcome::Exited(5),
    },
    Row {
        text: b"int f(int n) {\nif (n > 0)\nf(n - 1);\nif (n > 0)\nreturn 1;\nreturn 0;\n}\n\
int main(void) { return f(1); }\n",
        input: b"",
        turns: 1_000_000_000,
        output: b"",
        ending: Outcome::Returned(1),
    },
    Row {
        text: b"int main(void) {\nint x = 2147483647;\nx = x + 1;\nreturn x;\n}\n",
        input: b"",
        turns: 1_000_000_000,
        output: b"",
        ending: Outcome::Trapped(Trap::Overflow, 3),
    },
    Row {
        text: b"int main(void) {\nunsigned x = 4294967295;\nx = x + 1;\nreturn x;\n}\n",
        input: b"",
        turns: 1_000_000_000,
        output: b"",
        ending: Outcome::Returned(0),
    },
    Row {
        text: b"int a[2];\nint main(void) {\nint i = 2;\na[i] = putchar('x');\n}\n",
        input: b"",
        turns: 1_000_000_000,
        output: b"",
        ending: Outcome::Trapped(Trap::BadIndex, 4),
    },
    Row {
        text: b"int main(void) { int r = 0; if (1) if (0) r = 1; else r = 2; return r; }",
        input: b"",
        turns: 1_000_000_000,
        output: b"",
        ending: Outcome::Returned(2),
    },
    Row {
        text: b"#include <stdio.h>\n\nint lines, words;\n\nint blank(int c) {\n  switch (c) {\n  \
case ' ':\n  case '\\n':\n  case '\\t':\n    return 1;\n  default:\n    return 0;\n  }\n}\n\n\
void number(int n) {\n  if (n >= 10)\n    number(n / 10);\n  putchar('0' + n % 10);\n}\n\n\
int main(void) {\n  int c, inside = 0;\n  while ((c = getchar()) != EOF) {\n    if (c == '\\n')\n      \
lines++;\n    if (blank(c))\n      inside = 0;\n    else if (!inside) {\n      inside = 1;\n      \
words++;\n    }\n  }\n  number(lines);\n  putchar(' ');\n  number(words);\n  putchar('\\n');\n  return 0;\n\
}\n",
        input: b"a b\n",
        turns: 1_000_000_000,
        output: b"1 2\n",
        ending: Outcome::Returned(0),
    },
    Row {
        text: b"int f(int n) { if (n == 0) return 0;\nreturn f(n - 1); }\nint main(void) { return f(1998); }",
        input: b"",
        turns: 1_000_000_000,
        output: b"",
        ending: Outcome::Returned(0),
    },
    Row {
        text: b"int f(int n) { if (n == 0) return 0;\nreturn f(n - 1); }\nint main(void) { return f(1999); }",
        input: b"",
        turns: 1_000_000_000,
        output: b"",
        ending: Outcome::Trapped(Trap::CallDepth, 2),
    },
    Row {
        text: b"int p(int c) { putchar(c); return c; }\nint s(int a, int b) { return putchar(a + b); }\n\
int main(void) { return s(p('!'), p('#')) - p('A'); }",
        input: b"",
        turns: 1_000_000_000,
        output: b"!#DA",
        ending: Outcome::Returned(3),
    },
    Row {
        text: b"int p(int c) { putchar(c); return c; }\n\
int main(void) { p('a') && 0 || p('b') && p('c'); 0 && p('d'); 1 || p('e'); return !p('f') ? p('g') : \
p('h'), 7; }",
        input: b"",
        turns: 1_000_000_000,
        output: b"abcfh",
        ending: Outcome::Returned(7),
    },
    Row {
        text: b"int f(int a, int b) { putchar('f'); return a + b; }\n\
int main(void) { return f(f(1, 2), f(3, (exit(300), 4))); }",
        input: b"",
        turns: 1_000_000_000,
        output: b"f",
        ending: Outcome::Exited(44),
    },
    Row {
        text: b"int main(void) { int i, s = 0; for (i = 0; i < 9; i++) { if (i == 2) continue; if (i == 5) \
break; s += i; } do { s--; if (s > 5) continue; s -= 3; } while (s > 2); while (1) { s += 7; if (s < 20) \
continue; break; } return s * 10 + i; }",
        input: b"",
        turns: 1_000_000_000,
        output: b"",
        ending: Outcome::Returned(235),
    },
    Row {
        text: b"int main(void) { int c, n = 0; while ((c = getchar()) != EOF) switch (c) { case 'a': n++; \
case 'b': n++; continue; case 'c': n += 10; break; default: return n; } return 100 + n; }",
        input: b"abcab",
        turns: 1_000_000_000,
        output: b"",
        ending: Outcome::Returned(116),
    },
    Row {
        text: b"int main(void) { int c, n = 0; while ((c = getchar()) != EOF) switch (c) { case 'a': n++; \
case 'b': n++; continue; case 'c': n += 10; break; default: return n; } return 100 + n; }",
        input: b"abcx",
        turns: 1_000_000_000,
        output: b"",
        ending: Outcome::Returned(13),
    },
    Row {
        text: b"int main(void) { char c = 127; c++; unsigned char d = 255; d += 2; _Bool b = 2; b++; b--; \
int a[3] = {4, 5}; a[b]++; a[a[2]] <<= 2; return c == -128 ? d * 100 + a[0] * 5 + a[1] + b : 1; }",
        input: b"",
        turns: 1_000_000_000,
        output: b"",
        ending: Outcome::Returned(205),
    },
    Row {
        text: b"int main(void) { int x = 5; int y = x++ * 10; y += --x; y = y + (x, 3) - (x = 2); return y * \
3 + -7 / 2 + -7 % 2 + (-8 >> 1) + (1u - 2 > 0); }",
        input: b"",
        turns: 1_000_000_000,
        output: b"",
        ending: Outcome::Returned(161),
    },
    Row {
        text: b"int main(void) {\nint z = 0;\nreturn 1\n/\nz;\n}",
        input: b"",
        turns: 1_000_000_000,
        output: b"",
        ending: Outcome::Trapped(Trap::DivideByZero, 4),
    },
    Row {
        text: b"int main(void) {\nint z = 32;\nreturn 1\n<< z;\n}",
        input: b"",
        turns: 1_000_000_000,
        output: b"",
        ending: Outcome::Trapped(Trap::ShiftRange, 4),
    },
    Row {
        text: b"int main(void) {\nint z = -1;\nz <<= 0;\n}",
        input: b"",
        turns: 1_000_000_000,
        output: b"",
        ending: Outcome::Trapped(Trap::Overflow, 3),
    },
    Row {
        text: b"int main(void) {\nputchar(321); putchar(-1);\nexit(-1);\n}",
        input: b"",
        turns: 1_000_000_000,
        output: b"A\xff",
        ending: Outcome::Exited(255),
    },
    Row {
        text: b"long l = 4294967296; int g[3] = {1, 2};\nint f(char c) { return c; }\n\
int main(void) { g[2] = l; return f(200) + 100 + g[0] + g[1] * 2 + g[2]; }",
        input: b"",
        turns: 1_000_000_000,
        output: b"",
        ending: Outcome::Returned(49),
    },
];
