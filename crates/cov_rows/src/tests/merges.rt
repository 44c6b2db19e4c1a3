//! What `merge` leaves, and why it refuses.

use super::assert_played;
use super::pieces::{DATA, INPUTS};
use std::test::Fail;

#[test]
fn merged_data_are_those_of_all_runs(rt: HostRuntime) -> Result<(), Fail> {
    assert_played(
        &rt,
        &[
            INPUTS,
            DATA,
            "
# After two runs on `aa`, and after none.
hex twice.gcda
61 64 63 67 72 30 31 50
a3 ab 98 fa
01 00 00 00 00 00 00 a1 04 00 00 00
02 00 00 00
00 00 00 01 08 00 00 00 00 00 00 00
20 15 25 2e
00 00 a1 01 10 00 00 00
02 00 00 00 00 00 00 00
04 00 00 00 00 00 00 00
00 00 f1 01 08 00 00 00
1d 00 00 00 00 00 00 00
end
hex none.gcda
61 64 63 67 72 30 31 50
a3 ab 98 fa
01 00 00 00 00 00 00 a1 04 00 00 00
00 00 00 00
00 00 00 01 08 00 00 00 00 00 00 00
20 15 25 2e
00 00 a1 01 10 00 00 00
00 00 00 00 00 00 00 00
00 00 00 00 00 00 00 00
00 00 f1 01 08 00 00 00
00 00 00 00 00 00 00 00
end

folder A.gcda=aa.gcda B.gcda=nothing.gcda Q.gcda=old
$ merge A B Q < left.txt
= 0 Done
same Q.gcda as both.gcda
same A.gcda as aa.gcda
same B.gcda as nothing.gcda
changed Q.gcda as old
left 4

folder A.gcda=aa.gcda B.gcda=nothing.gcda Q.gcda=old
$ merge B A Q < left.txt
= 0 Done
same Q.gcda as both.gcda
same A.gcda as aa.gcda
same B.gcda as nothing.gcda
changed Q.gcda as old
left 4

folder A.gcda=aa.gcda B.gcda=nothing.gcda Q.gcda=old
$ merge A A Q < left.txt
= 0 Done
same Q.gcda as twice.gcda
same A.gcda as aa.gcda
same B.gcda as nothing.gcda
changed Q.gcda as old
left 4

folder A.gcda=aa.gcda B.gcda=nothing.gcda Q.gcda=old
$ merge A B A < left.txt
= 0 Done
same A.gcda as both.gcda
changed A.gcda as aa.gcda
same B.gcda as nothing.gcda
same Q.gcda as old
left 4

folder A.gcda=aa.gcda B.gcda=nothing.gcda Q.gcda=old
$ merge A B B < left.txt
= 0 Done
same B.gcda as both.gcda
same A.gcda as aa.gcda
changed B.gcda as nothing.gcda
same Q.gcda as old
left 4

folder A.gcda=most.gcda B.gcda=none.gcda Q.gcda=old
$ merge A B Q < left.txt
= 0 Done
same Q.gcda as most.gcda
same A.gcda as most.gcda
same B.gcda as none.gcda
changed Q.gcda as old
left 4
",
        ],
    )
}

#[test]
fn data_that_cannot_be_merged_leave_the_third(rt: HostRuntime) -> Result<(), Fail> {
    assert_played(
        &rt,
        &[
            INPUTS,
            DATA,
            r#"
# With half of the greatest number of runs, and with a counter that is almost the greatest.
join half.gcda aa.gcda
change half.gcda 24 00 00 00 80
change half.gcda 76 01
hex almost.gcda
61 64 63 67 72 30 31 50
a3 ab 98 fa
01 00 00 00 00 00 00 a1 04 00 00 00
01 00 00 00
00 00 00 01 08 00 00 00 00 00 00 00
20 15 25 2e
00 00 a1 01 10 00 00 00
01 00 00 00 00 00 00 00
fe ff ff ff ff ff ff 7f
00 00 f1 01 08 00 00 00
01 00 00 00 00 00 00 00
end

folder B.gcda=aa.gcda Q.gcda=old
$ merge A B Q
! cov: missing A.gcda
= 120 Missing("A.gcda")
same B.gcda as aa.gcda
same Q.gcda as old
absent A.gcda

folder B.gcda=cut.gcda Q.gcda=old
$ merge A B Q
! cov: missing A.gcda
= 120 Missing("A.gcda")
same B.gcda as cut.gcda
same Q.gcda as old
absent A.gcda

folder A.gcda=aa.gcda Q.gcda=old
$ merge A B Q
! cov: missing B.gcda
= 120 Missing("B.gcda")
same A.gcda as aa.gcda
same Q.gcda as old
absent B.gcda

folder A.gcda=cut.gcda Q.gcda=old
$ merge A B Q
! cov: bad data short at byte 83
= 120 BadData(Short(83))
same A.gcda as cut.gcda
same Q.gcda as old
absent B.gcda

folder A.gcda=aa.gcda B.gcda=cut.gcda Q.gcda=old
$ merge A B Q
! cov: bad data short at byte 83
= 120 BadData(Short(83))
same A.gcda as aa.gcda
same B.gcda as cut.gcda
same Q.gcda as old

folder A.gcda=aa.gcda B.gcda=stamped.gcda Q.gcda=old
$ merge A B Q
! cov: other build 4204309411 1
= 120 OtherBuild(4204309411, 1)
same A.gcda as aa.gcda
same B.gcda as stamped.gcda
same Q.gcda as old

folder A.gcda=aa.gcda B.gcda=summed.gcda Q.gcda=old
$ merge A B Q
! cov: other shape of function 0
= 120 OtherShape(0)
same A.gcda as aa.gcda
same B.gcda as summed.gcda
same Q.gcda as old

folder A.gcda=half.gcda B.gcda=half.gcda Q.gcda=old
$ merge A B Q
! cov: runs passed
= 120 RunsPassed
same A.gcda as half.gcda
same B.gcda as half.gcda
same Q.gcda as old

folder A.gcda=aa.gcda B.gcda=almost.gcda Q.gcda=old
$ merge A B Q
! cov: count passed in function 0 at counter 1
= 120 CountPassed(0, 1)
same A.gcda as aa.gcda
same B.gcda as almost.gcda
same Q.gcda as old
"#,
        ],
    )
}

#[test]
fn a_failed_call_of_the_folder_leaves_the_third(rt: HostRuntime) -> Result<(), Fail> {
    assert_played(
        &rt,
        &[
            DATA,
            "

fail folder 0
folder A.gcda=aa.gcda B.gcda=aa.gcda
$ merge A B Q
! cov: folder fault
= 120 FolderFault
same A.gcda as aa.gcda
same B.gcda as aa.gcda
absent Q.gcda Q A B

fail folder 1
folder A.gcda=aa.gcda B.gcda=aa.gcda
$ merge A B Q
! cov: folder fault
= 120 FolderFault
same A.gcda as aa.gcda
same B.gcda as aa.gcda
absent Q.gcda Q A B

fail folder 2
folder A.gcda=aa.gcda B.gcda=aa.gcda
$ merge A B Q
! cov: folder fault
= 120 FolderFault
same A.gcda as aa.gcda
same B.gcda as aa.gcda
absent Q.gcda Q A B

fail folder 3
folder A.gcda=aa.gcda B.gcda=aa.gcda
$ merge A B Q
= 0 Done
same A.gcda as aa.gcda
same B.gcda as aa.gcda
there Q.gcda
absent Q A B
",
        ],
    )
}
