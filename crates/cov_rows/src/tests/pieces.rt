//! Files that more than one session uses.

/// Inputs, and what stood under a name before.
pub const INPUTS: &str = r#"
file aa.txt "aa"
file x.txt "x"
file e.txt ""
file left.txt "left"
file old "old"
"#;

/// Counts the bytes `a` that its input begins with.
pub const LOOP: &str = "
file P.c
int main(void) {
int n = 0;
while (getchar() == 'a')
n++;
return n;
}
end
";

/// The report on the loop before its first run.
pub const UNRUN: &str = "
file unrun
        -:    0:Source:P.c
        -:    0:Graph:P.gcno
        -:    0:Data:P.gcda
        -:    0:Runs:0
    #####:    1:int main(void) {
    #####:    2:int n = 0;
    #####:    3:while (getchar() == 'a')
    #####:    4:n++;
    #####:    5:return n;
        -:    6:}
function main called 0 returned 0 exited 0
block 2 count 0 lines 1 2
block 3 count 0 lines 3
block 4 count 0 lines 4
block 5 count 0 lines 5
arc 0-2 fall 0
arc 2-3 fall 0
arc 3-4 fall 0 branch never
arc 3-5 jump 0 branch never
arc 4-3 jump 0
arc 5-1 jump 0
path missed 2 3 4
path missed 2 3 5
path missed 3 4 3
path missed 4 3 4
path missed 4 3 5
lines 0 of 5
branches 0 of 2
calls 0 of 0
paths 0 of 5
end
";

/// The report on the loop after a run on `aa`.
pub const ON_AA: &str = "
file on_aa
        -:    0:Source:P.c
        -:    0:Graph:P.gcno
        -:    0:Data:P.gcda
        -:    0:Runs:1
        1:    1:int main(void) {
        1:    2:int n = 0;
        3:    3:while (getchar() == 'a')
        2:    4:n++;
        1:    5:return n;
        -:    6:}
function main called 1 returned 1 exited 0
block 2 count 1 lines 1 2
block 3 count 3 lines 3
block 4 count 2 lines 4
block 5 count 1 lines 5
arc 0-2 fall 1
arc 2-3 fall 1
arc 3-4 fall 2 branch 66%
arc 3-5 jump 1 branch 33%
arc 4-3 jump 2
arc 5-1 jump 1
path covered 2 3 4
path missed 2 3 5
path covered 3 4 3
path covered 4 3 4
path covered 4 3 5
lines 5 of 5
branches 2 of 2
calls 0 of 0
paths 4 of 5
end
";

/// The report on the loop after a run on nothing.
pub const ON_NOTHING: &str = "
file on_nothing
        -:    0:Source:P.c
        -:    0:Graph:P.gcno
        -:    0:Data:P.gcda
        -:    0:Runs:1
        1:    1:int main(void) {
        1:    2:int n = 0;
        1:    3:while (getchar() == 'a')
    #####:    4:n++;
        1:    5:return n;
        -:    6:}
function main called 1 returned 1 exited 0
block 2 count 1 lines 1 2
block 3 count 1 lines 3
block 4 count 0 lines 4
block 5 count 1 lines 5
arc 0-2 fall 1
arc 2-3 fall 1
arc 3-4 fall 0 branch 0%
arc 3-5 jump 1 branch 100%
arc 4-3 jump 0
arc 5-1 jump 1
path missed 2 3 4
path covered 2 3 5
path missed 3 4 3
path missed 4 3 4
path missed 4 3 5
lines 4 of 5
branches 1 of 2
calls 0 of 0
paths 1 of 5
end
";

/// The report on the loop after both runs.
pub const ON_BOTH: &str = "
file on_both
        -:    0:Source:P.c
        -:    0:Graph:P.gcno
        -:    0:Data:P.gcda
        -:    0:Runs:2
        2:    1:int main(void) {
        2:    2:int n = 0;
        4:    3:while (getchar() == 'a')
        2:    4:n++;
        2:    5:return n;
        -:    6:}
function main called 2 returned 2 exited 0
block 2 count 2 lines 1 2
block 3 count 4 lines 3
block 4 count 2 lines 4
block 5 count 2 lines 5
arc 0-2 fall 2
arc 2-3 fall 2
arc 3-4 fall 2 branch 50%
arc 3-5 jump 2 branch 50%
arc 4-3 jump 2
arc 5-1 jump 2
path covered 2 3 4
path covered 2 3 5
path covered 3 4 3
path covered 4 3 4
path covered 4 3 5
lines 5 of 5
branches 2 of 2
calls 0 of 0
paths 5 of 5
end
";

/// A program that exits two calls deep, and the report on it after a run.
pub const EXITS: &str = "
file exits.c
void g(void) { exit(5); }
void f(void) { g(); }
int main(void) { f(); }
end
file exits_report
        -:    0:Source:P.c
        -:    0:Graph:P.gcno
        -:    0:Data:P.gcda
        -:    0:Runs:1
        1:    1:void g(void) { exit(5); }
        1:    2:void f(void) { g(); }
        1:    3:int main(void) { f(); }
function g called 1 returned 0 exited 1
block 2 count 1 lines 1
arc 0-2 fall 1
arc 2-1 callexit 1
path covered 2
function f called 1 returned 0 exited 1
block 2 count 1 lines 2
block 3 count 0 lines 2
arc 0-2 fall 1
arc 2-1 callexit 1
arc 2-3 fall 0
arc 3-1 jump 0
path missed 2 3
function main called 1 returned 0 exited 1
block 2 count 1 lines 3
block 3 count 0 lines 3
arc 0-2 fall 1
arc 2-1 callexit 1
arc 2-3 fall 0
arc 3-1 jump 0
path missed 2 3
lines 3 of 3
branches 0 of 0
calls 0 of 2
paths 1 of 3
end
";

/// A function that calls itself once, and its report: what stands before the paths of its first
/// function, what stands behind where they are listed, and where they are more than 3.
pub const RECURSION: &str = "
file recursion.c
int f(int n) {
if (n > 0)
f(n - 1);
if (n > 0)
return 1;
return 0;
}
int main(void) { return f(1); }
end
file recursion_front
        -:    0:Source:P.c
        -:    0:Graph:P.gcno
        -:    0:Data:P.gcda
        -:    0:Runs:1
        2:    1:int f(int n) {
        2:    2:if (n > 0)
        1:    3:f(n - 1);
        2:    4:if (n > 0)
        1:    5:return 1;
        1:    6:return 0;
        -:    7:}
        1:    8:int main(void) { return f(1); }
function f called 2 returned 2 exited 0
block 2 count 2 lines 1 2
block 3 count 1 lines 3
block 4 count 1 lines 3
block 5 count 2 lines 4
block 6 count 1 lines 5
block 7 count 1 lines 6
arc 0-2 fall 2
arc 2-3 fall 1 branch 50%
arc 2-5 jump 1 branch 50%
arc 3-1 callexit 0
arc 3-4 fall 1
arc 4-5 fall 1
arc 5-6 fall 1 branch 50%
arc 5-7 jump 1 branch 50%
arc 6-1 jump 1
arc 7-1 jump 1
end
file recursion_listed
path covered 2 3 4 5 6
path missed 2 3 4 5 7
path missed 2 5 6
path covered 2 5 7
function main called 1 returned 1 exited 0
block 2 count 1 lines 8
block 3 count 1 lines 8
arc 0-2 fall 1
arc 2-1 callexit 0
arc 2-3 fall 1
arc 3-1 jump 1
path covered 2 3
lines 7 of 7
branches 4 of 4
calls 2 of 2
paths 3 of 5
end
file recursion_cut
paths more than 3
function main called 1 returned 1 exited 0
block 2 count 1 lines 8
block 3 count 1 lines 8
arc 0-2 fall 1
arc 2-1 callexit 0
arc 2-3 fall 1
arc 3-1 jump 1
path covered 2 3
lines 7 of 7
branches 4 of 4
calls 2 of 2
paths 1 of 1
end
";

/// Counts the lines and the words of its input.
pub const WORD_COUNTER: &str = r"
file W.c
#include <stdio.h>

int lines, words;

int blank(int c) {
  switch (c) {
  case ' ':
  case '\n':
  case '\t':
    return 1;
  default:
    return 0;
  }
}

void number(int n) {
  if (n >= 10)
    number(n / 10);
  putchar('0' + n % 10);
}

int main(void) {
  int c, inside = 0;
  while ((c = getchar()) != EOF) {
    if (c == '\n')
      lines++;
    if (blank(c))
      inside = 0;
    else if (!inside) {
      inside = 1;
      words++;
    }
  }
  number(lines);
  putchar(' ');
  number(words);
  putchar('\n');
  return 0;
}
end
file w.txt
a b
end
";

/// Data files of the loop: after a run on `aa`, a run on nothing and both; with the greatest counter,
/// with a path that it hasn't, with another stamp, with another checksum, and cut by a byte.
pub const DATA: &str = "
hex aa.gcda
61 64 63 67 72 30 31 50
a3 ab 98 fa
01 00 00 00 00 00 00 a1 04 00 00 00
01 00 00 00
00 00 00 01 08 00 00 00 00 00 00 00
20 15 25 2e
00 00 a1 01 10 00 00 00
01 00 00 00 00 00 00 00
02 00 00 00 00 00 00 00
00 00 f1 01 08 00 00 00
1d 00 00 00 00 00 00 00
end
hex nothing.gcda
61 64 63 67 72 30 31 50
a3 ab 98 fa
01 00 00 00 00 00 00 a1 04 00 00 00
01 00 00 00
00 00 00 01 08 00 00 00 00 00 00 00
20 15 25 2e
00 00 a1 01 10 00 00 00
01 00 00 00 00 00 00 00
00 00 00 00 00 00 00 00
00 00 f1 01 08 00 00 00
02 00 00 00 00 00 00 00
end
hex both.gcda
61 64 63 67 72 30 31 50
a3 ab 98 fa
01 00 00 00 00 00 00 a1 04 00 00 00
02 00 00 00
00 00 00 01 08 00 00 00 00 00 00 00
20 15 25 2e
00 00 a1 01 10 00 00 00
02 00 00 00 00 00 00 00
02 00 00 00 00 00 00 00
00 00 f1 01 08 00 00 00
1f 00 00 00 00 00 00 00
end
hex most.gcda
61 64 63 67 72 30 31 50
a3 ab 98 fa
01 00 00 00 00 00 00 a1 04 00 00 00
01 00 00 00
00 00 00 01 08 00 00 00 00 00 00 00
20 15 25 2e
00 00 a1 01 10 00 00 00
ff ff ff ff ff ff ff 7f
00 00 00 00 00 00 00 00
00 00 f1 01 08 00 00 00
01 00 00 00 00 00 00 00
end
hex past.gcda
61 64 63 67 72 30 31 50
a3 ab 98 fa
01 00 00 00 00 00 00 a1 04 00 00 00
01 00 00 00
00 00 00 01 08 00 00 00 00 00 00 00
20 15 25 2e
00 00 a1 01 10 00 00 00
01 00 00 00 00 00 00 00
02 00 00 00 00 00 00 00
00 00 f1 01 08 00 00 00
20 00 00 00 00 00 00 00
end
join stamped.gcda aa.gcda
change stamped.gcda 8 01 00 00 00
join summed.gcda aa.gcda
change summed.gcda 40 00
join cut.gcda aa.gcda
cut cut.gcda 83
";
