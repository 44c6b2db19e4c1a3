//! What `run` leaves, and why it refuses.

use super::assert_played;
use super::pieces::{DATA, INPUTS, LOOP};
use std::test::Fail;

#[test]
fn a_run_takes_no_more_than_its_turns(rt: HostRuntime) -> Result<(), Fail> {
    assert_played(
        &rt,
        &[
            INPUTS,
            LOOP,
            DATA,
            r#"
join Q.c P.c
file R.c "int main(void) { for (;;) ; }"
folder P.c Q.c R.c
$ build P.c
= 0 Done
$ build --plain Q.c
= 0 Done
$ build R.c
= 0 Done
$ run --turns 1 P < aa.txt
! cov: out of turns after 1
= 122 OutOfTurns(1)
$ run --turns 1 Q < aa.txt
! cov: out of turns after 1
= 122 OutOfTurns(1)
$ run --turns 3 R
! cov: out of turns after 3
= 122 OutOfTurns(3)
$ run --turns 2 Q < aa.txt
= 2 Ran(2)
$ run --turns 2 P < aa.txt
= 2 Ran(2)
$ run --turns 1 P < aa.txt
! cov: out of turns after 1
= 122 OutOfTurns(1)
same P.gcda as aa.gcda
absent Q.gcda R.gcda
"#,
        ],
    )
}

#[test]
fn runs_add_to_the_data(rt: HostRuntime) -> Result<(), Fail> {
    assert_played(
        &rt,
        &[
            INPUTS,
            LOOP,
            DATA,
            "
size aa.gcda 84
folder P.c
$ build P.c
= 0 Done
$ run P < aa.txt
= 2 Ran(2)
same P.gcda as aa.gcda
$ run P
= 0 Ran(0)
same P.gcda as both.gcda
",
        ],
    )
}

#[test]
fn no_path_is_kept_with_the_limit_0(rt: HostRuntime) -> Result<(), Fail> {
    assert_played(
        &rt,
        &[
            INPUTS,
            LOOP,
            "
hex no_paths.gcda
61 64 63 67 72 30 31 50
ce c1 0a 23
01 00 00 00 00 00 00 a1 04 00 00 00
01 00 00 00
00 00 00 01 08 00 00 00 00 00 00 00
20 15 25 2e
00 00 a1 01 10 00 00 00
01 00 00 00 00 00 00 00
02 00 00 00 00 00 00 00
00 00 f1 01 00 00 00 00
end
size no_paths.gcda 76
folder P.c
$ build --path-limit 0 P.c
= 0 Done
$ run P < aa.txt
= 2 Ran(2)
same P.gcda as no_paths.gcda
",
        ],
    )
}

#[test]
fn data_that_cannot_be_added_to_stay(rt: HostRuntime) -> Result<(), Fail> {
    assert_played(
        &rt,
        &[
            INPUTS,
            LOOP,
            DATA,
            r#"
# Data with a byte more, of another version, with a number that is none, and with the most runs.
hex 0
00
end
join longer.gcda aa.gcda 0
file version.gcda "adcgr02P"
hex above.gcda
61 64 63 67 72 30 31 50
a3 ab 98 fa
01 00 00 00 00 00 00 a1 04 00 00 00
01 00 00 00
00 00 00 01 08 00 00 00 00 00 00 00
20 15 25 2e
00 00 a1 01 10 00 00 00
00 00 00 00 00 00 00 80
00 00 00 00 00 00 00 00
00 00 f1 01 08 00 00 00
01 00 00 00 00 00 00 00
end
join passed.gcda aa.gcda
change passed.gcda 24 ff ff ff ff

folder P.c P.gcda=e.txt
$ build P.c
= 0 Done
$ run P < aa.txt
! cov: bad data short at byte 0
= 120 BadData(Short(0))
same P.gcda as e.txt

folder P.c P.gcda=cut.gcda
$ build P.c
= 0 Done
$ run P < aa.txt
! cov: bad data short at byte 83
= 120 BadData(Short(83))
same P.gcda as cut.gcda

folder P.c P.gcda=longer.gcda
$ build P.c
= 0 Done
$ run P < aa.txt
! cov: bad data extra at byte 84
= 120 BadData(Extra(84))
same P.gcda as longer.gcda

folder P.c P.gcda=version.gcda
$ build P.c
= 0 Done
$ run P < aa.txt
! cov: bad data version at byte 4
= 120 BadData(Version(4))
same P.gcda as version.gcda

folder P.c P.gcda=P.c
$ build P.c
= 0 Done
$ run P < aa.txt
! cov: bad data magic at byte 0
= 120 BadData(Magic(0))
same P.gcda as P.c

folder P.c P.gcda=above.gcda
$ build P.c
= 0 Done
$ run P < aa.txt
! cov: bad data number at byte 52
= 120 BadData(Number(52))
same P.gcda as above.gcda

folder P.c P.gcda=stamped.gcda
$ build P.c
= 0 Done
$ run P < aa.txt
! cov: other build 4204309411 1
= 120 OtherBuild(4204309411, 1)
same P.gcda as stamped.gcda

folder P.c P.gcda=summed.gcda
$ build P.c
= 0 Done
$ run P < aa.txt
! cov: other shape of function 0
= 120 OtherShape(0)
same P.gcda as summed.gcda

folder P.c P.gcda=past.gcda
$ build P.c
= 0 Done
$ run P < aa.txt
! cov: other shape of function 0
= 120 OtherShape(0)
same P.gcda as past.gcda

folder P.c P.gcda=passed.gcda
$ build P.c
= 0 Done
$ run P < aa.txt
! cov: runs passed
= 120 RunsPassed
same P.gcda as passed.gcda

folder P.c P.gcda=most.gcda
$ build P.c
= 0 Done
$ run P < aa.txt
! cov: count passed in function 0 at counter 0
= 120 CountPassed(0, 0)
same P.gcda as most.gcda
"#,
        ],
    )
}

#[test]
fn data_of_an_older_source_are_of_another_build(rt: HostRuntime) -> Result<(), Fail> {
    assert_played(
        &rt,
        &[
            DATA,
            r"
file F.c
int main(void) {
putchar('x');
return 0;
}
end
folder F.c
$ build F.c
= 0 Done
keep F.code

folder P.code=F.code P.gcda=aa.gcda
$ run P
> x\
! cov: other build 3181910364 4204309411
= 120 OtherBuild(3181910364, 4204309411)
same P.code as F.code
same P.gcda as aa.gcda
",
        ],
    )
}

#[test]
fn code_files_that_are_none_are_refused_at_their_place(rt: HostRuntime) -> Result<(), Fail> {
    assert_played(
        &rt,
        &[
            INPUTS,
            LOOP,
            "
folder P.c
$ build --plain P.c
= 0 Done
keep P.code
size P.code 142
hex 0
00
end
join none P.code
cut none 0
join one P.code
cut one 1
join head P.code
cut head 24
join short P.code
cut short 141
join longer P.code 0
join magic P.code
change magic 0 00
join version P.code
change version 4 00
join covered P.code
change covered 12 02
join main P.code
change main 16 01

folder F.code=none
$ run F < aa.txt
! cov: bad code short at byte 0
= 120 BadCode(Short(0))
left 2

folder F.code=one
$ run F < aa.txt
! cov: bad code short at byte 1
= 120 BadCode(Short(1))
left 2

folder F.code=head
$ run F < aa.txt
! cov: bad code short at byte 24
= 120 BadCode(Short(24))
left 2

folder F.code=short
$ run F < aa.txt
! cov: bad code short at byte 141
= 120 BadCode(Short(141))
left 2

folder F.code=longer
$ run F < aa.txt
! cov: bad code extra at byte 142
= 120 BadCode(Extra(142))
left 2

folder F.code=magic
$ run F < aa.txt
! cov: bad code magic at byte 0
= 120 BadCode(Magic(0))
left 2

folder F.code=version
$ run F < aa.txt
! cov: bad code version at byte 4
= 120 BadCode(Version(4))
left 2

folder F.code=covered
$ run F < aa.txt
! cov: bad code field at byte 12
= 120 BadCode(Field(12))
left 2

folder F.code=main
$ run F < aa.txt
! cov: bad code field at byte 16
= 120 BadCode(Field(16))
left 2
",
        ],
    )
}

#[test]
fn a_code_file_serves_alone(rt: HostRuntime) -> Result<(), Fail> {
    assert_played(
        &rt,
        &[
            INPUTS,
            LOOP,
            DATA,
            r#"
folder P.c
$ build P.c
= 0 Done
keep P.code

folder Q.code=P.code
$ run Q < aa.txt
= 2 Ran(2)
$ run P < aa.txt
! cov: missing P.code
= 120 Missing("P.code")
same Q.gcda as aa.gcda
"#,
        ],
    )
}
