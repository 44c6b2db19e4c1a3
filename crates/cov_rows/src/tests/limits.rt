//! The limits on outputs, inputs, sources and files.

use super::assert_played;
use super::pieces::LOOP;
use std::test::Fail;

#[test]
fn a_full_output_stops_the_run_and_counts_nowhere(rt: HostRuntime) -> Result<(), Fail> {
    assert_played(
        &rt,
        &[
            r#"
# Puts a `b` for each `a` of its input.
file F.c
int main(void) {
while (getchar() == 'a') {
putchar('b');
}
return 0;
}
end
file a "a"
join aaa 4096*a
join most.txt 4096*aaa
join over.txt most.txt a
file b "b"
join bbb 4096*b
join output 4096*bbb
size output 16777216

folder F.c aa.txt=most.txt
$ cover F.c aa.txt
> run aa.txt: returned 0, 16777216 bytes
output output
>
>         -:    0:Source:F.c
>         -:    0:Graph:F.gcno
>         -:    0:Data:F.gcda
>         -:    0:Runs:1
>         1:    1:int main(void) {
>  16777217:    2:while (getchar() == 'a') {
>  16777216:    3:putchar('b');
>         -:    4:}
>         1:    5:return 0;
>         -:    6:}
more
= 0 Done

folder F.c aa.txt=over.txt
$ cover F.c aa.txt
> run aa.txt: trapped output limit at line 3, 16777216 bytes
output output
>
>         -:    0:Source:F.c
>         -:    0:Graph:F.gcno
>         -:    0:Data:F.gcda
>         -:    0:Runs:0
>     #####:    1:int main(void) {
>     #####:    2:while (getchar() == 'a') {
>     #####:    3:putchar('b');
>         -:    4:}
>     #####:    5:return 0;
>         -:    6:}
more
= 0 Done
"#,
        ],
    )
}

// A first line of 17 bytes, 74,894 lines of 14, a loop of 29 and last lines of 14 are 1,048,576 bytes.
#[test]
fn the_longest_source_is_covered(rt: HostRuntime) -> Result<(), Fail> {
    assert_played(
        &rt,
        &[
            r#"
file front
int main(void) {
end
file line
putchar('b');
end
file behind
while (getchar() == 'a') {
}
return 100;
}
end
join F.c front 74894*line behind
size F.c 1048576
file lines

        1:74895:putchar('b');
        3:74896:while (getchar() == 'a') {
        -:74897:}
        1:74898:return 100;
        -:74899:}
function main called 1 returned 1 exited 0
end
file sum

lines 74897 of 74897
end
file aa.txt "aa"
folder F.c aa.txt
$ cover F.c aa.txt
> run aa.txt: returned 100, 74894 bytes
> bbb\
more
= 0 Done
holds lines
holds sum
"#,
        ],
    )
}

#[test]
fn sources_past_the_limit_are_too_long(rt: HostRuntime) -> Result<(), Fail> {
    assert_played(
        &rt,
        &[
            r#"
file n

end
join nnn 1024*n
join most.c 1024*nnn
join over.c most.c n
size over.c 1048577

folder F.c=most.c
$ build F.c
! cov: source: no main at byte 0
= 120 SourceRefused(NotAccepted(Types(NoMain(0))))
absent F.code F.gcno

folder F.c=over.c
$ build F.c
! cov: too long F.c
= 120 TooLong("F.c")
absent F.code F.gcno

folder F.c=most.c
$ build --plain F.c
! cov: source: no main at byte 0
= 120 SourceRefused(NotAccepted(Types(NoMain(0))))
absent F.code F.gcno

folder F.c=over.c
$ build --plain F.c
! cov: too long F.c
= 120 TooLong("F.c")
absent F.code F.gcno

folder F.c=most.c
$ cover F.c no.txt
! cov: source: no main at byte 0
= 120 SourceRefused(NotAccepted(Types(NoMain(0))))
absent F.code F.gcno

folder F.c=over.c
$ cover F.c no.txt
! cov: too long F.c
= 120 TooLong("F.c")
absent F.code F.gcno
"#,
        ],
    )
}

#[test]
fn inputs_and_code_past_the_limit_are_too_long(rt: HostRuntime) -> Result<(), Fail> {
    assert_played(
        &rt,
        &[
            LOOP,
            r#"
file a "a"
join aaa 8192*a
join over 8192*aaa a
size over 67108865

folder P.c F.txt=over
$ cover P.c F.txt
! cov: too long F.txt
= 120 TooLong("F.txt")

folder P.c F.code=over
$ run F
! cov: too long F.code
= 120 TooLong("F.code")
"#,
        ],
    )
}

#[test]
fn notes_and_data_past_the_limit_are_too_long(rt: HostRuntime) -> Result<(), Fail> {
    assert_played(
        &rt,
        &[
            LOOP,
            r#"
file a "a"
join aaa 8192*a
join over 8192*aaa a
size over 67108865

folder P.c F.gcno=over
$ report F
! cov: too long F.gcno
= 120 TooLong("F.gcno")

folder P.c F.gcda=over
$ merge F G H
! cov: too long F.gcda
= 120 TooLong("F.gcda")
"#,
        ],
    )
}

#[test]
fn standard_input_past_the_limit_is_too_long(rt: HostRuntime) -> Result<(), Fail> {
    assert_played(
        &rt,
        &[
            r#"
file F.c "int main(void) { return getchar(); }"
folder F.c
$ build F.c
= 0 Done
keep F.code
hex 7
07
end
join 777 8192*7
join most 8192*777
join over most 7
size over 67108865

folder F.code
$ run F < most
= 7 Ran(7)
there F.gcda

folder F.code
$ run F < over
! cov: too long input
= 120 TooLong("input")
absent F.gcda
"#,
        ],
    )
}
