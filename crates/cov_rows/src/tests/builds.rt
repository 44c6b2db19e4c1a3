//! What `build` leaves, with counting and without.

use super::assert_played;
use super::pieces::{INPUTS, LOOP};
use std::test::Fail;

/// The notes of the loop in P.c.
const NOTES: &str = "
hex P.gcno
6f 6e 63 67 72 30 31 50 a3 ab 98 fa 10 27 00 00
01 00 00 00 00 00 00 01 15 00 00 00 00 00 00 00
20 15 25 2e 05 00 00 00 6d 61 69 6e 00 01 00 00
00 00 00 41 01 04 00 00 00 06 00 00 00 00 00 43
01 0c 00 00 00 00 00 00 00 02 00 00 00 05 00 00
00 00 00 43 01 0c 00 00 00 02 00 00 00 03 00 00
00 04 00 00 00 00 00 43 01 14 00 00 00 03 00 00
00 04 00 00 00 05 00 00 00 05 00 00 00 01 00 00
00 00 00 43 01 0c 00 00 00 04 00 00 00 03 00 00
00 00 00 00 00 00 00 43 01 0c 00 00 00 05 00 00
00 01 00 00 00 01 00 00 00 00 00 45 01 0c 00 00
00 02 00 00 00 01 00 00 00 02 00 00 00 00 00 45
01 08 00 00 00 03 00 00 00 03 00 00 00 00 00 45
01 08 00 00 00 04 00 00 00 04 00 00 00 00 00 45
01 08 00 00 00 05 00 00 00 05 00 00 00
end
";

#[test]
fn a_build_replaces_notes_and_code(rt: HostRuntime) -> Result<(), Fail> {
    assert_played(
        &rt,
        &[
            INPUTS,
            LOOP,
            NOTES,
            "
# How the code begins, with the stamp of the loop.
hex covered
64 6f 63 70 72 30 32 50 a3 ab 98 fa 01 00 00 00
end
folder P.c P.gcda=old P.code=old Q.code=old
$ build P.c
= 0 Done
same P.c P.gcno
same P.gcda as old
same Q.code as old
absent P.c.code P.c.gcno Q.gcno
begins P.code as covered
keep P.code
$ build P.c
= 0 Done
same P.code
",
        ],
    )
}

#[test]
fn a_plain_build_replaces_the_code_alone(rt: HostRuntime) -> Result<(), Fail> {
    assert_played(
        &rt,
        &[
            INPUTS,
            LOOP,
            "
# How the code begins, with the stamp for no paths.
hex plain
64 6f 63 70 72 30 32 50 ce c1 0a 23 00 00 00 00
end
folder P.c P.code=old
$ build --plain P.c
= 0 Done
same P.c
absent P.gcno P.gcda P.c.code
begins P.code as plain
",
        ],
    )
}

#[test]
fn files_are_named_as_their_source(rt: HostRuntime) -> Result<(), Fail> {
    assert_played(
        &rt,
        &[
            LOOP,
            NOTES,
            "

folder a.c=P.c
$ build a.c
= 0 Done
there a.code
same a.gcno as P.gcno

folder a.b.c=P.c
$ build a.b.c
= 0 Done
there a.b.code
same a.b.gcno as P.gcno

folder .c.c=P.c
$ build .c.c
= 0 Done
there .c.code
same .c.gcno as P.gcno

folder in/deep.c=P.c
$ build in/deep.c
= 0 Done
there in/deep.code
same in/deep.gcno as P.gcno
",
        ],
    )
}

#[test]
fn a_failed_call_of_the_folder_leaves_what_was_not_replaced(rt: HostRuntime) -> Result<(), Fail> {
    assert_played(
        &rt,
        &[
            INPUTS,
            LOOP,
            NOTES,
            "
# Only the notes and code that were replaced before the failed call are new.

fail folder 0
folder P.c P.gcno=old P.code=old
$ build P.c
! cov: folder fault
= 120 FolderFault
same P.gcno as old
same P.code as old

fail folder 1
folder P.c P.gcno=old P.code=old
$ build P.c
! cov: folder fault
= 120 FolderFault
same P.gcno as old
same P.code as old

fail folder 2
folder P.c P.gcno=old P.code=old
$ build P.c
! cov: folder fault
= 120 FolderFault
same P.gcno
same P.code as old

fail folder 3
folder P.c P.gcno=old P.code=old
$ build P.c
= 0 Done
same P.gcno
changed P.code as old

fail folder 0
folder P.c P.gcno=old P.code=old
$ build --plain P.c
! cov: folder fault
= 120 FolderFault
same P.gcno as old
same P.code as old

fail folder 1
folder P.c P.gcno=old P.code=old
$ build --plain P.c
! cov: folder fault
= 120 FolderFault
same P.gcno as old
same P.code as old

fail folder 2
folder P.c P.gcno=old P.code=old
$ build --plain P.c
= 0 Done
same P.gcno as old
changed P.code as old
",
        ],
    )
}
