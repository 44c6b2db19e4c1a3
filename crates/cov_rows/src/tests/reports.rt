//! What `report` writes, and why it refuses.

use super::assert_played;
use super::pieces::{DATA, EXITS, INPUTS, LOOP, ON_AA, ON_BOTH, RECURSION, UNRUN};
use std::test::Fail;

#[test]
fn reports_between_runs_are_those_of_cover(rt: HostRuntime) -> Result<(), Fail> {
    assert_played(
        &rt,
        &[
            INPUTS,
            LOOP,
            UNRUN,
            ON_AA,
            ON_BOTH,
            DATA,
            "
folder P.c aa.txt e.txt
$ build P.c
= 0 Done
$ report P
output unrun
= 0 Done
absent P.gcda
$ run P < aa.txt
= 2 Ran(2)
$ report P
output on_aa
= 0 Done
$ run P
= 0 Ran(0)
$ report P
output on_both
= 0 Done
same P.c aa.txt e.txt
same P.gcda as both.gcda
$ report P < left.txt
output on_both
= 0 Done
left 4
$ cover P.c aa.txt e.txt
> run aa.txt: returned 2, 0 bytes
> run e.txt: returned 0, 0 bytes
output on_both
= 0 Done
",
        ],
    )
}

#[test]
fn reports_of_other_programs_are_those_of_cover(rt: HostRuntime) -> Result<(), Fail> {
    assert_played(
        &rt,
        &[
            EXITS,
            RECURSION,
            "
folder P.c=exits.c
$ build P.c
= 0 Done
$ run P
= 5 Ran(5)
$ report P
output exits_report
= 0 Done

folder P.c=recursion.c
$ build --path-limit 3 P.c
= 0 Done
$ run P
= 1 Ran(1)
$ report P
output recursion_front
output recursion_cut
= 0 Done
",
        ],
    )
}

#[test]
fn files_are_refused_in_their_order(rt: HostRuntime) -> Result<(), Fail> {
    assert_played(
        &rt,
        &[
            INPUTS,
            LOOP,
            DATA,
            r#"
# The notes cut by a byte, and the source with another byte.
folder P.c
$ build P.c
= 0 Done
keep P.gcno
size P.gcno 237
join cut.gcno P.gcno
cut cut.gcno 236
join other.c P.c
change other.c 49 62

folder P.c P.gcda=aa.gcda
$ report P < left.txt
! cov: missing P.gcno
= 120 Missing("P.gcno")
same P.c
same P.gcda as aa.gcda
left 4

folder P.gcda=cut.gcda
$ report P < left.txt
! cov: missing P.gcno
= 120 Missing("P.gcno")
same P.gcda as cut.gcda
left 4

folder P.gcno=cut.gcno P.c P.gcda=aa.gcda
$ report P < left.txt
! cov: bad notes short at byte 236
= 120 BadNotes(Short(236))
same P.gcno as cut.gcno
same P.c
same P.gcda as aa.gcda
left 4

folder P.gcno=cut.gcno
$ report P < left.txt
! cov: bad notes short at byte 236
= 120 BadNotes(Short(236))
same P.gcno as cut.gcno
left 4

folder P.gcno P.gcda=aa.gcda
$ report P < left.txt
! cov: missing P.c
= 120 Missing("P.c")
same P.gcno
same P.gcda as aa.gcda
left 4

folder P.gcno P.gcda=cut.gcda
$ report P < left.txt
! cov: missing P.c
= 120 Missing("P.c")
same P.gcno
same P.gcda as cut.gcda
left 4

folder P.gcno P.c=other.c P.gcda=aa.gcda
$ report P < left.txt
! cov: source changed 4204309411 790596361
= 120 SourceChanged(4204309411, 790596361)
same P.gcno
same P.c as other.c
same P.gcda as aa.gcda
left 4

folder P.gcno P.c=other.c P.gcda=cut.gcda
$ report P < left.txt
! cov: source changed 4204309411 790596361
= 120 SourceChanged(4204309411, 790596361)
same P.gcno
same P.c as other.c
same P.gcda as cut.gcda
left 4

folder P.gcno P.c P.gcda=cut.gcda
$ report P < left.txt
! cov: bad data short at byte 83
= 120 BadData(Short(83))
same P.gcno
same P.c
same P.gcda as cut.gcda
left 4
"#,
        ],
    )
}

#[test]
fn data_that_do_not_fit_the_notes_are_refused(rt: HostRuntime) -> Result<(), Fail> {
    assert_played(
        &rt,
        &[
            LOOP,
            DATA,
            "
folder P.c
$ build P.c
= 0 Done
keep P.gcno

folder P.c P.gcno P.gcda=stamped.gcda
$ report P
! cov: other build 4204309411 1
= 120 OtherBuild(4204309411, 1)
same P.c P.gcno
same P.gcda as stamped.gcda

folder P.c P.gcno P.gcda=summed.gcda
$ report P
! cov: other shape of function 0
= 120 OtherShape(0)
same P.c P.gcno
same P.gcda as summed.gcda

folder P.c P.gcno P.gcda=past.gcda
$ report P
! cov: other shape of function 0
= 120 OtherShape(0)
same P.c P.gcno
same P.gcda as past.gcda
",
        ],
    )
}

// The counters of `f` are on its arcs 0-2 and 2-3, of which the second can't be above the first.
#[test]
fn counters_of_no_walks_are_no_flow(rt: HostRuntime) -> Result<(), Fail> {
    assert_played(
        &rt,
        &[
            EXITS,
            "
folder P.c=exits.c
$ build P.c
= 0 Done
$ run P
= 5 Ran(5)
keep P.gcno P.gcda
change P.gcda 108 02

folder P.c=exits.c P.gcno P.gcda
$ report P
! cov: no flow in function 1 at arc 1
= 120 NotAFlow(1, 1)
same P.c as exits.c
same P.gcno P.gcda
",
        ],
    )
}
