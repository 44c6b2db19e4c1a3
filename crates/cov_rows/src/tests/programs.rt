//! What runs of programs leave, of code that counts and of code that doesn't.

use super::assert_played;
use super::pieces::{EXITS, INPUTS, LOOP, WORD_COUNTER};
use std::test::Fail;

/// Programs that are run once each.
const PROGRAMS: &str = r#"
file ab.txt "ab"
file overflow.c
int main(void) {
int x = 2147483647;
x = x + 1;
return x;
}
end
file wraps.c
int main(void) {
unsigned x = 4294967295;
x = x + 1;
return x;
}
end
file index.c
int a[2];
int main(void) {
int i = 2;
a[i] = putchar('x');
}
end
file else.c "int main(void) { int r = 0; if (1) if (0) r = 1; else r = 2; return r; }"
file divide.c
int main(void) {
putchar('x');
return 1 / 0;
}
end
file depth.c
int f(int n) {
return f(n + 1);
}
int main(void) { return f(0); }
end
file seven.c "int main(void) { return 256 + 7; }"
file status.c "int main(void) { return 122; }"
file minus.c "int main(void) { exit(-1); }"
file counts_down.c
int main(void) {
int n;
for (n = 10; n; n--)
;
putchar('0' + n);
}
end
"#;

#[test]
fn programs_run_as_they_mean(rt: HostRuntime) -> Result<(), Fail> {
    assert_played(
        &rt,
        &[
            INPUTS,
            LOOP,
            EXITS,
            WORD_COUNTER,
            PROGRAMS,
            r"

folder F.c=P.c
$ build F.c
= 0 Done
keep F.code
folder F.code
$ run F < aa.txt
= 2 Ran(2)
left 0
same F.code
there F.gcda

folder F.c=P.c
$ build F.c
= 0 Done
keep F.code
folder F.code
$ run F
= 0 Ran(0)
left 0
same F.code
there F.gcda

folder F.c=P.c
$ build F.c
= 0 Done
keep F.code
folder F.code
$ run F < ab.txt
= 1 Ran(1)
left 0
same F.code
there F.gcda

folder F.c=overflow.c
$ build F.c
= 0 Done
keep F.code
folder F.code
$ run F
! cov: trapped overflow at line 3
= 121 Trapped(Overflow, 3)
left 0
same F.code
absent F.gcda

folder F.c=wraps.c
$ build F.c
= 0 Done
keep F.code
folder F.code
$ run F
= 0 Ran(0)
left 0
same F.code
there F.gcda

folder F.c=index.c
$ build F.c
= 0 Done
keep F.code
folder F.code
$ run F
! cov: trapped bad index at line 4
= 121 Trapped(BadIndex, 4)
left 0
same F.code
absent F.gcda

folder F.c=else.c
$ build F.c
= 0 Done
keep F.code
folder F.code
$ run F
= 2 Ran(2)
left 0
same F.code
there F.gcda

folder F.c=W.c
$ build F.c
= 0 Done
keep F.code
folder F.code
$ run F < w.txt
> 1 2
= 0 Ran(0)
left 0
same F.code
there F.gcda

folder F.c=exits.c
$ build F.c
= 0 Done
keep F.code
folder F.code
$ run F
= 5 Ran(5)
left 0
same F.code
there F.gcda

folder F.c=divide.c
$ build F.c
= 0 Done
keep F.code
folder F.code
$ run F
> x\
! cov: trapped divide by zero at line 3
= 121 Trapped(DivideByZero, 3)
left 0
same F.code
absent F.gcda

folder F.c=depth.c
$ build F.c
= 0 Done
keep F.code
folder F.code
$ run F
! cov: trapped call depth at line 2
= 121 Trapped(CallDepth, 2)
left 0
same F.code
absent F.gcda

folder F.c=seven.c
$ build F.c
= 0 Done
keep F.code
folder F.code
$ run F
= 7 Ran(7)
left 0
same F.code
there F.gcda

folder F.c=status.c
$ build F.c
= 0 Done
keep F.code
folder F.code
$ run F
= 122 Ran(122)
left 0
same F.code
there F.gcda

folder F.c=minus.c
$ build F.c
= 0 Done
keep F.code
folder F.code
$ run F
= 255 Ran(255)
left 0
same F.code
there F.gcda

folder F.c=counts_down.c
$ build F.c
= 0 Done
keep F.code
folder F.code
$ run F
> 0\
= 0 Ran(0)
left 0
same F.code
there F.gcda
",
        ],
    )
}

#[test]
fn plain_programs_run_as_they_mean_and_leave_no_data(rt: HostRuntime) -> Result<(), Fail> {
    assert_played(
        &rt,
        &[
            INPUTS,
            LOOP,
            EXITS,
            WORD_COUNTER,
            PROGRAMS,
            r"

folder F.c=P.c
$ build --plain F.c
= 0 Done
keep F.code
folder F.code
$ run F < aa.txt
= 2 Ran(2)
left 0
same F.code
absent F.gcda

folder F.c=P.c
$ build --plain F.c
= 0 Done
keep F.code
folder F.code
$ run F
= 0 Ran(0)
left 0
same F.code
absent F.gcda

folder F.c=P.c
$ build --plain F.c
= 0 Done
keep F.code
folder F.code
$ run F < ab.txt
= 1 Ran(1)
left 0
same F.code
absent F.gcda

folder F.c=overflow.c
$ build --plain F.c
= 0 Done
keep F.code
folder F.code
$ run F
! cov: trapped overflow at line 3
= 121 Trapped(Overflow, 3)
left 0
same F.code
absent F.gcda

folder F.c=wraps.c
$ build --plain F.c
= 0 Done
keep F.code
folder F.code
$ run F
= 0 Ran(0)
left 0
same F.code
absent F.gcda

folder F.c=index.c
$ build --plain F.c
= 0 Done
keep F.code
folder F.code
$ run F
! cov: trapped bad index at line 4
= 121 Trapped(BadIndex, 4)
left 0
same F.code
absent F.gcda

folder F.c=else.c
$ build --plain F.c
= 0 Done
keep F.code
folder F.code
$ run F
= 2 Ran(2)
left 0
same F.code
absent F.gcda

folder F.c=W.c
$ build --plain F.c
= 0 Done
keep F.code
folder F.code
$ run F < w.txt
> 1 2
= 0 Ran(0)
left 0
same F.code
absent F.gcda

folder F.c=exits.c
$ build --plain F.c
= 0 Done
keep F.code
folder F.code
$ run F
= 5 Ran(5)
left 0
same F.code
absent F.gcda

folder F.c=divide.c
$ build --plain F.c
= 0 Done
keep F.code
folder F.code
$ run F
> x\
! cov: trapped divide by zero at line 3
= 121 Trapped(DivideByZero, 3)
left 0
same F.code
absent F.gcda

folder F.c=depth.c
$ build --plain F.c
= 0 Done
keep F.code
folder F.code
$ run F
! cov: trapped call depth at line 2
= 121 Trapped(CallDepth, 2)
left 0
same F.code
absent F.gcda

folder F.c=seven.c
$ build --plain F.c
= 0 Done
keep F.code
folder F.code
$ run F
= 7 Ran(7)
left 0
same F.code
absent F.gcda

folder F.c=status.c
$ build --plain F.c
= 0 Done
keep F.code
folder F.code
$ run F
= 122 Ran(122)
left 0
same F.code
absent F.gcda

folder F.c=minus.c
$ build --plain F.c
= 0 Done
keep F.code
folder F.code
$ run F
= 255 Ran(255)
left 0
same F.code
absent F.gcda

folder F.c=counts_down.c
$ build --plain F.c
= 0 Done
keep F.code
folder F.code
$ run F
> 0\
= 0 Ran(0)
left 0
same F.code
absent F.gcda
",
        ],
    )
}
