//! Faults of the folder, of standard input, of the output and of the error output.

use super::assert_played;
use std::test::Fail;

/// Puts a `b` for each `a` that its input begins with; its code, its notes and its data after a run.
const WHOLE: &str = r#"
file P.c
int main(void) {
putchar('<');
while (getchar() == 'a')
putchar('b');
return 3;
}
end
file aa.txt "aa"
file aaa.txt "aaa"
folder P.c
$ build P.c
= 0 Done
$ run P
> <\
= 3 Ran(3)
keep P.code P.gcno P.gcda
"#;

#[test]
fn faults_of_the_outside_are_told_and_leave_the_files(rt: HostRuntime) -> Result<(), Fail> {
    assert_played(
        &rt,
        &[
            WHOLE,
            r"

fail folder 0
folder P.c P.code P.gcno P.gcda aa.txt
$ cover P.c aa.txt < aa.txt
! cov: folder fault
= 120 FolderFault
same P.code P.gcno P.gcda

fail folder 1
folder P.c P.code P.gcno P.gcda aa.txt
$ cover P.c aa.txt < aa.txt
! cov: folder fault
= 120 FolderFault
same P.code P.gcno P.gcda

fail folder 2
folder P.c P.code P.gcno P.gcda aa.txt
$ cover P.c aa.txt no < aa.txt
! cov: folder fault
= 120 FolderFault
same P.code P.gcno P.gcda

fail output 0
folder P.c P.code P.gcno P.gcda aa.txt
$ cover P.c aa.txt < aa.txt
! cov: write fault
= 120 WriteFault
same P.code P.gcno P.gcda

fail folder 1
fail errors 0
folder P.c P.code P.gcno P.gcda aa.txt
$ cover P.c aa.txt < aa.txt
= 120 FolderFault
same P.code P.gcno P.gcda

fail output 0
fail errors 0
folder P.c P.code P.gcno P.gcda aa.txt
$ cover P.c aa.txt < aa.txt
= 120 WriteFault
same P.code P.gcno P.gcda

fail folder 0
folder P.c P.code P.gcno P.gcda aa.txt
$ run P < aa.txt
! cov: folder fault
= 120 FolderFault
same P.code P.gcno P.gcda

fail input 0
folder P.c P.code P.gcno P.gcda aa.txt
$ run P < aa.txt
! cov: read fault
= 120 ReadFault
same P.code P.gcno P.gcda

fail input 1
folder P.c P.code P.gcno P.gcda aa.txt
$ run P < aa.txt
! cov: read fault
= 120 ReadFault
same P.code P.gcno P.gcda

fail output 0
folder P.c P.code P.gcno P.gcda aa.txt
$ run P < aa.txt
! cov: write fault
= 120 WriteFault
same P.code P.gcno P.gcda

fail folder 1
folder P.c P.code P.gcno P.gcda aa.txt
$ run P < aa.txt
> <bb\
! cov: folder fault
= 120 FolderFault
same P.code P.gcno P.gcda

fail folder 2
folder P.c P.code P.gcno P.gcda aa.txt
$ run P < aa.txt
> <bb\
! cov: folder fault
= 120 FolderFault
same P.code P.gcno P.gcda

fail input 1
fail errors 0
folder P.c P.code P.gcno P.gcda aa.txt
$ run P < aa.txt
= 120 ReadFault
same P.code P.gcno P.gcda

fail folder 2
fail errors 0
folder P.c P.code P.gcno P.gcda aa.txt
$ run P < aa.txt
> <bb\
= 120 FolderFault
same P.code P.gcno P.gcda

fail folder 0
fail input 0
fail output 0
folder P.c P.code P.gcno P.gcda aa.txt
$ run P < aa.txt
! cov: folder fault
= 120 FolderFault
same P.code P.gcno P.gcda

fail folder 1
fail output 0
folder P.c P.code P.gcno P.gcda aa.txt
$ run P < aa.txt
! cov: write fault
= 120 WriteFault
same P.code P.gcno P.gcda

fail folder 0
folder P.c P.code P.gcno P.gcda aa.txt
$ report P < aa.txt
! cov: folder fault
= 120 FolderFault
same P.code P.gcno P.gcda

fail folder 1
folder P.c P.code P.gcno P.gcda aa.txt
$ report P < aa.txt
! cov: folder fault
= 120 FolderFault
same P.code P.gcno P.gcda

fail folder 2
folder P.c P.code P.gcno P.gcda aa.txt
$ report P < aa.txt
! cov: folder fault
= 120 FolderFault
same P.code P.gcno P.gcda

fail output 0
folder P.c P.code P.gcno P.gcda aa.txt
$ report P < aa.txt
! cov: write fault
= 120 WriteFault
same P.code P.gcno P.gcda
",
        ],
    )
}

// What comes behind the calls that a command makes can fail unseen.
#[test]
fn no_more_calls_are_made_than_are_needed(rt: HostRuntime) -> Result<(), Fail> {
    assert_played(
        &rt,
        &[
            WHOLE,
            "

fail folder 2
fail input 0
fail output 1
fail errors 0
folder P.c P.code P.gcno P.gcda aa.txt
$ cover P.c aa.txt < aa.txt
more
= 0 Done

fail folder 3
fail input 2
fail output 1
fail errors 0
folder P.c P.code P.gcno P.gcda aa.txt
$ run P < aa.txt
more
= 3 Ran(3)

fail folder 3
fail input 0
fail output 1
fail errors 0
folder P.c P.code P.gcno P.gcda aa.txt
$ report P < aa.txt
more
= 0 Done
",
        ],
    )
}

#[test]
fn a_run_whose_data_were_not_replaced_counts_nowhere(rt: HostRuntime) -> Result<(), Fail> {
    assert_played(
        &rt,
        &[
            WHOLE,
            r"
fail folder 2
folder P.c P.code P.gcno P.gcda aa.txt
$ run P < aa.txt
> <bb\
! cov: folder fault
= 120 FolderFault
$ run P < aaa.txt
> <bbb\
= 3 Ran(3)
keep P.gcda as next.gcda

folder P.c P.code P.gcno P.gcda aa.txt
$ run P < aaa.txt
> <bbb\
= 3 Ran(3)
same P.gcda as next.gcda
",
        ],
    )
}
