//! What `cover` writes: a line for each run, and the report.

use super::assert_played;
use super::pieces::{EXITS, INPUTS, LOOP, ON_AA, ON_BOTH, ON_NOTHING, RECURSION, WORD_COUNTER};
use std::test::Fail;

#[test]
fn runs_of_a_loop_are_added(rt: HostRuntime) -> Result<(), Fail> {
    assert_played(
        &rt,
        &[
            INPUTS,
            LOOP,
            ON_AA,
            ON_NOTHING,
            ON_BOTH,
            "

folder P.c aa.txt x.txt e.txt
$ cover P.c aa.txt < left.txt
> run aa.txt: returned 2, 0 bytes
output on_aa
= 0 Done
same P.c aa.txt x.txt e.txt
absent P.gcno P.code P.gcda
left 4

folder P.c aa.txt x.txt e.txt
$ cover P.c e.txt < left.txt
> run e.txt: returned 0, 0 bytes
output on_nothing
= 0 Done
same P.c aa.txt x.txt e.txt
absent P.gcno P.code P.gcda
left 4

folder P.c aa.txt x.txt e.txt
$ cover P.c e.txt --turns 0 < left.txt
> run e.txt: returned 0, 0 bytes
output on_nothing
= 0 Done
same P.c aa.txt x.txt e.txt
absent P.gcno P.code P.gcda
left 4

folder P.c aa.txt x.txt e.txt
$ cover P.c aa.txt e.txt < left.txt
> run aa.txt: returned 2, 0 bytes
> run e.txt: returned 0, 0 bytes
output on_both
= 0 Done
same P.c aa.txt x.txt e.txt
absent P.gcno P.code P.gcda
left 4

folder P.c aa.txt x.txt e.txt
$ cover P.c e.txt aa.txt < left.txt
> run e.txt: returned 0, 0 bytes
> run aa.txt: returned 2, 0 bytes
output on_both
= 0 Done
same P.c aa.txt x.txt e.txt
absent P.gcno P.code P.gcda
left 4
",
        ],
    )
}

#[test]
fn runs_out_of_turns_count_nowhere(rt: HostRuntime) -> Result<(), Fail> {
    assert_played(
        &rt,
        &[
            INPUTS,
            LOOP,
            ON_AA,
            ON_NOTHING,
            "

folder P.c aa.txt x.txt e.txt
$ cover --turns 2 P.c aa.txt < left.txt
> run aa.txt: returned 2, 0 bytes
output on_aa
= 0 Done
same P.c aa.txt x.txt e.txt
absent P.gcno P.code P.gcda
left 4

folder P.c aa.txt x.txt e.txt
$ cover --turns 1 P.c aa.txt e.txt < left.txt
> run aa.txt: out of turns, 0 bytes
> run e.txt: returned 0, 0 bytes
output on_nothing
= 0 Done
same P.c aa.txt x.txt e.txt
absent P.gcno P.code P.gcda
left 4
",
        ],
    )
}

#[test]
fn exits_and_calls_of_itself_are_counted(rt: HostRuntime) -> Result<(), Fail> {
    assert_played(
        &rt,
        &[
            INPUTS,
            EXITS,
            RECURSION,
            "

folder P.c=exits.c aa.txt x.txt e.txt
$ cover P.c e.txt < left.txt
> run e.txt: exited 5, 0 bytes
output exits_report
= 0 Done
same P.c as exits.c
same aa.txt x.txt e.txt
absent P.gcno P.code P.gcda
left 4

folder P.c=recursion.c aa.txt x.txt e.txt
$ cover P.c e.txt < left.txt
> run e.txt: returned 1, 0 bytes
output recursion_front
output recursion_listed
= 0 Done
same P.c as recursion.c
same aa.txt x.txt e.txt
absent P.gcno P.code P.gcda
left 4

folder P.c=recursion.c aa.txt x.txt e.txt
$ cover P.c e.txt --path-limit 4 < left.txt
> run e.txt: returned 1, 0 bytes
output recursion_front
output recursion_listed
= 0 Done
same P.c as recursion.c
same aa.txt x.txt e.txt
absent P.gcno P.code P.gcda
left 4

folder P.c=recursion.c aa.txt x.txt e.txt
$ cover --path-limit 3 P.c e.txt < left.txt
> run e.txt: returned 1, 0 bytes
output recursion_front
output recursion_cut
= 0 Done
same P.c as recursion.c
same aa.txt x.txt e.txt
absent P.gcno P.code P.gcda
left 4
",
        ],
    )
}

#[test]
fn one_function_has_one_block_in_one_line(rt: HostRuntime) -> Result<(), Fail> {
    assert_played(
        &rt,
        &[
            INPUTS,
            r#"
file P.c "int main(void) {}"
folder P.c aa.txt x.txt e.txt
$ cover P.c e.txt < left.txt
> run e.txt: returned 0, 0 bytes
>         -:    0:Source:P.c
>         -:    0:Graph:P.gcno
>         -:    0:Data:P.gcda
>         -:    0:Runs:1
>         1:    1:int main(void) {}
> function main called 1 returned 1 exited 0
> block 2 count 1 lines 1
> arc 0-2 fall 1
> arc 2-1 jump 1
> path covered 2
> lines 1 of 1
> branches 0 of 0
> calls 0 of 0
> paths 1 of 1
= 0 Done
same P.c aa.txt x.txt e.txt
absent P.gcno P.code P.gcda
left 4
"#,
        ],
    )
}

#[test]
fn passages_of_a_line_with_many_blocks_are_its_entries(rt: HostRuntime) -> Result<(), Fail> {
    assert_played(
        &rt,
        &[
            INPUTS,
            "
# A loop in one line.
file P.c
int main(void) {
int i = 0;
while (i < 10) i++;
return i;
}
end

folder P.c aa.txt x.txt e.txt
$ cover P.c e.txt < left.txt
> run e.txt: returned 10, 0 bytes
>         -:    0:Source:P.c
>         -:    0:Graph:P.gcno
>         -:    0:Data:P.gcda
>         -:    0:Runs:1
>         1:    1:int main(void) {
>         1:    2:int i = 0;
>         1:    3:while (i < 10) i++;
>         1:    4:return i;
>         -:    5:}
> function main called 1 returned 1 exited 0
> block 2 count 1 lines 1 2
> block 3 count 11 lines 3
> block 4 count 10 lines 3
> block 5 count 1 lines 4
> arc 0-2 fall 1
> arc 2-3 fall 1
> arc 3-4 fall 10 branch 90%
> arc 3-5 jump 1 branch 9%
> arc 4-3 jump 10
> arc 5-1 jump 1
> path covered 2 3 4
> path missed 2 3 5
> path covered 3 4 3
> path covered 4 3 4
> path covered 4 3 5
> lines 4 of 4
> branches 2 of 2
> calls 0 of 0
> paths 4 of 5
= 0 Done
same P.c aa.txt x.txt e.txt
absent P.gcno P.code P.gcda
left 4

# A loop whose head, test and step are in one line.
file P.c
int main(void) {
int i, s = 0;
for (i = 0; i < 3; i++)
s += i;
return s;
}
end

folder P.c aa.txt x.txt e.txt
$ cover P.c e.txt < left.txt
> run e.txt: returned 3, 0 bytes
>         -:    0:Source:P.c
>         -:    0:Graph:P.gcno
>         -:    0:Data:P.gcda
>         -:    0:Runs:1
>         1:    1:int main(void) {
>         1:    2:int i, s = 0;
>         4:    3:for (i = 0; i < 3; i++)
>         3:    4:s += i;
>         1:    5:return s;
>         -:    6:}
> function main called 1 returned 1 exited 0
> block 2 count 1 lines 1 2 3
> block 3 count 4 lines 3
> block 4 count 3 lines 4
> block 5 count 3 lines 3
> block 6 count 1 lines 5
> arc 0-2 fall 1
> arc 2-3 fall 1
> arc 3-4 fall 3 branch 75%
> arc 3-6 jump 1 branch 25%
> arc 4-5 fall 3
> arc 5-3 jump 3
> arc 6-1 jump 1
> path covered 2 3 4 5
> path missed 2 3 6
> path covered 3 4 5 3
> path covered 4 5 3 4
> path covered 4 5 3 6
> path covered 5 3 4 5
> lines 5 of 5
> branches 2 of 2
> calls 0 of 0
> paths 5 of 6
= 0 Done
same P.c aa.txt x.txt e.txt
absent P.gcno P.code P.gcda
left 4

# A choice in one line.
file P.c
int main(void) {
int c = getchar();
if (c == 'x') return 1; else return 2;
}
end

folder P.c aa.txt x.txt e.txt
$ cover P.c x.txt < left.txt
> run x.txt: returned 1, 0 bytes
>         -:    0:Source:P.c
>         -:    0:Graph:P.gcno
>         -:    0:Data:P.gcda
>         -:    0:Runs:1
>         1:    1:int main(void) {
>         1:    2:int c = getchar();
>         1:    3:if (c == 'x') return 1; else return 2;
>         -:    4:}
> function main called 1 returned 1 exited 0
> block 2 count 1 lines 1 2 3
> block 3 count 1 lines 3
> block 4 count 0 lines 3
> arc 0-2 fall 1
> arc 2-3 fall 1 branch 100%
> arc 2-4 jump 0 branch 0%
> arc 3-1 jump 1
> arc 4-1 jump 0
> path covered 2 3
> path missed 2 4
> lines 3 of 3
> branches 1 of 2
> calls 0 of 0
> paths 1 of 2
= 0 Done
same P.c aa.txt x.txt e.txt
absent P.gcno P.code P.gcda
left 4
",
        ],
    )
}

#[test]
fn outputs_stand_behind_their_runs(rt: HostRuntime) -> Result<(), Fail> {
    assert_played(
        &rt,
        &[
            INPUTS,
            "
# A loop that puts a byte for each that it takes.
file P.c
int main(void) {
putchar('<');
while (getchar() == 'a') {
putchar('b');
}
return 3;
}
end

folder P.c aa.txt x.txt e.txt
$ cover P.c aa.txt < left.txt
> run aa.txt: returned 3, 3 bytes
> <bb
>         -:    0:Source:P.c
>         -:    0:Graph:P.gcno
>         -:    0:Data:P.gcda
>         -:    0:Runs:1
>         1:    1:int main(void) {
>         1:    2:putchar('<');
>         3:    3:while (getchar() == 'a') {
>         2:    4:putchar('b');
>         -:    5:}
>         1:    6:return 3;
>         -:    7:}
> function main called 1 returned 1 exited 0
> block 2 count 1 lines 1 2
> block 3 count 3 lines 3
> block 4 count 2 lines 4
> block 5 count 1 lines 6
> arc 0-2 fall 1
> arc 2-3 fall 1
> arc 3-4 fall 2 branch 66%
> arc 3-5 jump 1 branch 33%
> arc 4-3 jump 2
> arc 5-1 jump 1
> path covered 2 3 4
> path missed 2 3 5
> path covered 3 4 3
> path covered 4 3 4
> path covered 4 3 5
> lines 5 of 5
> branches 2 of 2
> calls 0 of 0
> paths 4 of 5
= 0 Done
same P.c aa.txt x.txt e.txt
absent P.gcno P.code P.gcda
left 4

# A sum that is too large.
file P.c
int main(void) {
int x = 2147483647;
x = x + 1;
return x;
}
end

folder P.c aa.txt x.txt e.txt
$ cover P.c e.txt < left.txt
> run e.txt: trapped overflow at line 3, 0 bytes
>         -:    0:Source:P.c
>         -:    0:Graph:P.gcno
>         -:    0:Data:P.gcda
>         -:    0:Runs:0
>     #####:    1:int main(void) {
>     #####:    2:int x = 2147483647;
>     #####:    3:x = x + 1;
>     #####:    4:return x;
>         -:    5:}
> function main called 0 returned 0 exited 0
> block 2 count 0 lines 1 2 3 4
> arc 0-2 fall 0
> arc 2-1 jump 0
> path missed 2
> lines 0 of 4
> branches 0 of 0
> calls 0 of 0
> paths 0 of 1
= 0 Done
same P.c aa.txt x.txt e.txt
absent P.gcno P.code P.gcda
left 4
",
        ],
    )
}

#[test]
fn words_of_an_input_are_counted(rt: HostRuntime) -> Result<(), Fail> {
    assert_played(
        &rt,
        &[
            WORD_COUNTER,
            r"
file lines

lines 22 of 23
end
file calls

calls 3 of 4
end
folder W.c w.txt
$ cover W.c w.txt
> run w.txt: returned 0, 4 bytes
> 1 2
>
>         -:    0:Source:W.c
>         -:    0:Graph:W.gcno
>         -:    0:Data:W.gcda
>         -:    0:Runs:1
>         -:    1:#include <stdio.h>
>         -:    2:
>         -:    3:int lines, words;
>         -:    4:
>         4:    5:int blank(int c) {
>         4:    6:  switch (c) {
>         -:    7:  case ' ':
>         -:    8:  case '\n':
>         -:    9:  case '\t':
>         2:   10:    return 1;
>         -:   11:  default:
>         2:   12:    return 0;
>         -:   13:  }
>         -:   14:}
>         -:   15:
>         2:   16:void number(int n) {
>         2:   17:  if (n >= 10)
>     #####:   18:    number(n / 10);
>         2:   19:  putchar('0' + n % 10);
>         -:   20:}
>         -:   21:
>         1:   22:int main(void) {
>         1:   23:  int c, inside = 0;
>         5:   24:  while ((c = getchar()) != EOF) {
>         4:   25:    if (c == '\n')
>         1:   26:      lines++;
>         4:   27:    if (blank(c))
>         2:   28:      inside = 0;
>         2:   29:    else if (!inside) {
>         2:   30:      inside = 1;
>         2:   31:      words++;
>         -:   32:    }
>         -:   33:  }
>         1:   34:  number(lines);
>         1:   35:  putchar(' ');
>         1:   36:  number(words);
>         1:   37:  putchar('\n');
>         1:   38:  return 0;
>         -:   39:}
> function blank called 4 returned 4 exited 0
> block 2 count 4 lines 5 6
> block 3 count 2 lines 10
> block 4 count 2 lines 12
> arc 0-2 fall 4
> arc 2-3 fall 2 branch 50%
> arc 2-4 jump 2 branch 50%
> arc 3-1 jump 2
> arc 4-1 jump 2
> path covered 2 3
> path covered 2 4
> function number called 2 returned 2 exited 0
> block 2 count 2 lines 16 17
> block 3 count 0 lines 18
> block 4 count 0 lines 18
> block 5 count 2 lines 19
> arc 0-2 fall 2
> arc 2-3 fall 0 branch 0%
> arc 2-5 jump 2 branch 100%
> arc 3-1 callexit 0
> arc 3-4 fall 0
> arc 4-5 fall 0
> arc 5-1 jump 2
> path missed 2 3 4 5
> path covered 2 5
> function main called 1 returned 1 exited 0
more
= 0 Done
holds lines
holds calls
",
        ],
    )
}
