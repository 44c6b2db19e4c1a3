//! Commands that are refused, and what they say; they change nothing.

use super::assert_played;
use super::pieces::{INPUTS, LOOP};
use std::test::Fail;

#[test]
fn usage_faults_come_in_their_order(rt: HostRuntime) -> Result<(), Fail> {
    assert_played(
        &rt,
        &[
            INPUTS,
            LOOP,
            "
folder P.c aa.txt

$ < left.txt
! cov: usage: cover SRC IN.. | build SRC | run NAME | report NAME | merge A B OUT | make N
= 120 Usage(NoCommand)
same P.c aa.txt
absent P.code P.gcno P.gcda Q.gcda
left 4

$ frob --conditions < left.txt
! cov: condition coverage is left out
= 120 ConditionCoverage
same P.c aa.txt
absent P.code P.gcno P.gcda Q.gcda
left 4

$ build --conditions P.c < left.txt
! cov: condition coverage is left out
= 120 ConditionCoverage
same P.c aa.txt
absent P.code P.gcno P.gcda Q.gcda
left 4

$ build -fcondition-coverage P.c < left.txt
! cov: condition coverage is left out
= 120 ConditionCoverage
same P.c aa.txt
absent P.code P.gcno P.gcda Q.gcda
left 4

$ run P -- --conditions < left.txt
! cov: condition coverage is left out
= 120 ConditionCoverage
same P.c aa.txt
absent P.code P.gcno P.gcda Q.gcda
left 4

$ frob < left.txt
! cov: usage: cover SRC IN.. | build SRC | run NAME | report NAME | merge A B OUT | make N
= 120 Usage(UnknownCommand)
same P.c aa.txt
absent P.code P.gcno P.gcda Q.gcda
left 4

$ Build P.c < left.txt
! cov: usage: cover SRC IN.. | build SRC | run NAME | report NAME | merge A B OUT | make N
= 120 Usage(UnknownCommand)
same P.c aa.txt
absent P.code P.gcno P.gcda Q.gcda
left 4

$ --turns 5 run P < left.txt
! cov: usage: cover SRC IN.. | build SRC | run NAME | report NAME | merge A B OUT | make N
= 120 Usage(UnknownCommand)
same P.c aa.txt
absent P.code P.gcno P.gcda Q.gcda
left 4

$ build --path-limit x --what P < left.txt
! cov: usage: cover SRC IN.. | build SRC | run NAME | report NAME | merge A B OUT | make N
= 120 Usage(Words(UnknownArgument))
same P.c aa.txt
absent P.code P.gcno P.gcda Q.gcda
left 4

$ build --path-limit x P < left.txt
! cov: usage: cover SRC IN.. | build SRC | run NAME | report NAME | merge A B OUT | make N
= 120 Usage(BadNumber)
same P.c aa.txt
absent P.code P.gcno P.gcda Q.gcda
left 4

$ build --path-limit 65537 P.c < left.txt
! cov: usage: cover SRC IN.. | build SRC | run NAME | report NAME | merge A B OUT | make N
= 120 Usage(BadNumber)
same P.c aa.txt
absent P.code P.gcno P.gcda Q.gcda
left 4

$ cover --turns 1 --path-limit x P in < left.txt
! cov: usage: cover SRC IN.. | build SRC | run NAME | report NAME | merge A B OUT | make N
= 120 Usage(BadNumber)
same P.c aa.txt
absent P.code P.gcno P.gcda Q.gcda
left 4

$ run --turns x P < left.txt
! cov: usage: cover SRC IN.. | build SRC | run NAME | report NAME | merge A B OUT | make N
= 120 Usage(BadNumber)
same P.c aa.txt
absent P.code P.gcno P.gcda Q.gcda
left 4

$ run --turns 1099511627777 P < left.txt
! cov: usage: cover SRC IN.. | build SRC | run NAME | report NAME | merge A B OUT | make N
= 120 Usage(BadNumber)
same P.c aa.txt
absent P.code P.gcno P.gcda Q.gcda
left 4

$ make 0 < left.txt
! cov: usage: cover SRC IN.. | build SRC | run NAME | report NAME | merge A B OUT | make N
= 120 Usage(BadNumber)
same P.c aa.txt
absent P.code P.gcno P.gcda Q.gcda
left 4

$ build P < left.txt
! cov: usage: cover SRC IN.. | build SRC | run NAME | report NAME | merge A B OUT | make N
= 120 Usage(BadName)
same P.c aa.txt
absent P.code P.gcno P.gcda Q.gcda
left 4

$ build --plain P < left.txt
! cov: usage: cover SRC IN.. | build SRC | run NAME | report NAME | merge A B OUT | make N
= 120 Usage(BadName)
same P.c aa.txt
absent P.code P.gcno P.gcda Q.gcda
left 4

$ build .c < left.txt
! cov: usage: cover SRC IN.. | build SRC | run NAME | report NAME | merge A B OUT | make N
= 120 Usage(BadName)
same P.c aa.txt
absent P.code P.gcno P.gcda Q.gcda
left 4

$ build P.C < left.txt
! cov: usage: cover SRC IN.. | build SRC | run NAME | report NAME | merge A B OUT | make N
= 120 Usage(BadName)
same P.c aa.txt
absent P.code P.gcno P.gcda Q.gcda
left 4

$ cover P aa.txt < left.txt
! cov: usage: cover SRC IN.. | build SRC | run NAME | report NAME | merge A B OUT | make N
= 120 Usage(BadName)
same P.c aa.txt
absent P.code P.gcno P.gcda Q.gcda
left 4
",
        ],
    )
}

#[test]
fn words_that_do_not_fit_a_command_are_refused(rt: HostRuntime) -> Result<(), Fail> {
    assert_played(
        &rt,
        &[
            INPUTS,
            LOOP,
            "
folder P.c aa.txt

$ cover < left.txt
! cov: usage: cover SRC IN.. | build SRC | run NAME | report NAME | merge A B OUT | make N
= 120 Usage(Words(MissingRequiredArgument))
same P.c aa.txt
absent P.code P.gcno P.gcda Q.gcda
left 4

$ cover P.c < left.txt
! cov: usage: cover SRC IN.. | build SRC | run NAME | report NAME | merge A B OUT | make N
= 120 Usage(Words(MissingRequiredArgument))
same P.c aa.txt
absent P.code P.gcno P.gcda Q.gcda
left 4

$ build < left.txt
! cov: usage: cover SRC IN.. | build SRC | run NAME | report NAME | merge A B OUT | make N
= 120 Usage(Words(MissingRequiredArgument))
same P.c aa.txt
absent P.code P.gcno P.gcda Q.gcda
left 4

$ build P.c aa.txt < left.txt
! cov: usage: cover SRC IN.. | build SRC | run NAME | report NAME | merge A B OUT | make N
= 120 Usage(Words(UnknownArgument))
same P.c aa.txt
absent P.code P.gcno P.gcda Q.gcda
left 4

$ build -plain P.c < left.txt
! cov: usage: cover SRC IN.. | build SRC | run NAME | report NAME | merge A B OUT | make N
= 120 Usage(Words(UnknownArgument))
same P.c aa.txt
absent P.code P.gcno P.gcda Q.gcda
left 4

$ build --turns 5 P.c < left.txt
! cov: usage: cover SRC IN.. | build SRC | run NAME | report NAME | merge A B OUT | make N
= 120 Usage(Words(UnknownArgument))
same P.c aa.txt
absent P.code P.gcno P.gcda Q.gcda
left 4

$ run < left.txt
! cov: usage: cover SRC IN.. | build SRC | run NAME | report NAME | merge A B OUT | make N
= 120 Usage(Words(MissingRequiredArgument))
same P.c aa.txt
absent P.code P.gcno P.gcda Q.gcda
left 4

$ run P Q < left.txt
! cov: usage: cover SRC IN.. | build SRC | run NAME | report NAME | merge A B OUT | make N
= 120 Usage(Words(UnknownArgument))
same P.c aa.txt
absent P.code P.gcno P.gcda Q.gcda
left 4

$ report < left.txt
! cov: usage: cover SRC IN.. | build SRC | run NAME | report NAME | merge A B OUT | make N
= 120 Usage(Words(MissingRequiredArgument))
same P.c aa.txt
absent P.code P.gcno P.gcda Q.gcda
left 4

$ report P Q < left.txt
! cov: usage: cover SRC IN.. | build SRC | run NAME | report NAME | merge A B OUT | make N
= 120 Usage(Words(UnknownArgument))
same P.c aa.txt
absent P.code P.gcno P.gcda Q.gcda
left 4

$ merge P P < left.txt
! cov: usage: cover SRC IN.. | build SRC | run NAME | report NAME | merge A B OUT | make N
= 120 Usage(Words(MissingRequiredArgument))
same P.c aa.txt
absent P.code P.gcno P.gcda Q.gcda
left 4

$ merge P P P P < left.txt
! cov: usage: cover SRC IN.. | build SRC | run NAME | report NAME | merge A B OUT | make N
= 120 Usage(Words(UnknownArgument))
same P.c aa.txt
absent P.code P.gcno P.gcda Q.gcda
left 4
",
        ],
    )
}

#[test]
fn made_sources_are_left_out(rt: HostRuntime) -> Result<(), Fail> {
    assert_played(
        &rt,
        &[
            INPUTS,
            LOOP,
            "
folder P.c aa.txt

$ make 2 < left.txt
! cov: usage: cover SRC IN.. | build SRC | run NAME | report NAME | merge A B OUT | make N
= 120 Usage(UnknownCommand)
same P.c aa.txt
absent P.code P.gcno P.gcda Q.gcda
left 4
",
        ],
    )
}

#[test]
fn files_that_are_missing_are_named(rt: HostRuntime) -> Result<(), Fail> {
    assert_played(
        &rt,
        &[
            INPUTS,
            LOOP,
            r#"
folder P.c aa.txt

$ cover Q.c no.txt < left.txt
! cov: missing Q.c
= 120 Missing("Q.c")
same P.c aa.txt
absent P.code P.gcno P.gcda Q.gcda
left 4

$ cover P.c no.txt < left.txt
! cov: missing no.txt
= 120 Missing("no.txt")
same P.c aa.txt
absent P.code P.gcno P.gcda Q.gcda
left 4

$ cover P.c aa.txt no.txt aa.txt < left.txt
! cov: missing no.txt
= 120 Missing("no.txt")
same P.c aa.txt
absent P.code P.gcno P.gcda Q.gcda
left 4

$ build Q.c < left.txt
! cov: missing Q.c
= 120 Missing("Q.c")
same P.c aa.txt
absent P.code P.gcno P.gcda Q.gcda
left 4

$ build --plain Q.c < left.txt
! cov: missing Q.c
= 120 Missing("Q.c")
same P.c aa.txt
absent P.code P.gcno P.gcda Q.gcda
left 4

$ run P < left.txt
! cov: missing P.code
= 120 Missing("P.code")
same P.c aa.txt
absent P.code P.gcno P.gcda Q.gcda
left 4

$ run P.c < left.txt
! cov: missing P.c.code
= 120 Missing("P.c.code")
same P.c aa.txt
absent P.code P.gcno P.gcda Q.gcda
left 4

$ report P < left.txt
! cov: missing P.gcno
= 120 Missing("P.gcno")
same P.c aa.txt
absent P.code P.gcno P.gcda Q.gcda
left 4

$ merge P P Q < left.txt
! cov: missing P.gcda
= 120 Missing("P.gcda")
same P.c aa.txt
absent P.code P.gcno P.gcda Q.gcda
left 4
"#,
        ],
    )
}

/// Sources that aren't accepted.
const SOURCES: &str = r#"
file twice.c "int main(void) { switch (1) { case 1: case 1: ; } }"
file goto.c "int main(void) { goto x; }"
file empty.c ""
file no_main.c
int x;
end
file number.c "int main(void) { return 09; }"
file unknown.c "int main(void) { return x; }"
file syntax.c "int main(void) { return 0 }"
file byte.c "int main(void) { return '"
file frame.c "int main(void) { int a[4097]; return 0; }"
file globals.c "int a[1048576], b; int main(void) { return 0; }"
"#;

#[test]
fn sources_that_are_not_accepted_are_refused(rt: HostRuntime) -> Result<(), Fail> {
    assert_played(
        &rt,
        &[
            INPUTS,
            SOURCES,
            "

folder F.c=twice.c F.code=old
$ build F.c < left.txt
! cov: source: twice case at byte 38
= 120 SourceRefused(NotAccepted(Types(TwiceCase(38))))
same F.c as twice.c
same F.code as old
absent P.code P.gcno P.gcda Q.gcda
left 4

folder F.c=goto.c F.code=old
$ build F.c < left.txt
! cov: source: left out goto at byte 17
= 120 SourceRefused(NotAccepted(Lex(LeftOut(Goto, 17))))
same F.c as goto.c
same F.code as old
absent P.code P.gcno P.gcda Q.gcda
left 4

folder F.c=empty.c F.code=old
$ build F.c < left.txt
! cov: source: no main at byte 0
= 120 SourceRefused(NotAccepted(Types(NoMain(0))))
same F.c as empty.c
same F.code as old
absent P.code P.gcno P.gcda Q.gcda
left 4

folder F.c=no_main.c F.code=old
$ build F.c < left.txt
! cov: source: no main at byte 6
= 120 SourceRefused(NotAccepted(Types(NoMain(6))))
same F.c as no_main.c
same F.code as old
absent P.code P.gcno P.gcda Q.gcda
left 4

folder F.c=number.c F.code=old
$ build F.c < left.txt
! cov: source: bad number at byte 24
= 120 SourceRefused(NotAccepted(Lex(BadNumber(24))))
same F.c as number.c
same F.code as old
absent P.code P.gcno P.gcda Q.gcda
left 4

folder F.c=unknown.c F.code=old
$ build F.c < left.txt
! cov: source: unknown at byte 24
= 120 SourceRefused(NotAccepted(Types(Unknown(24))))
same F.c as unknown.c
same F.code as old
absent P.code P.gcno P.gcda Q.gcda
left 4

folder F.c=syntax.c F.code=old
$ build F.c < left.txt
! cov: source: syntax at byte 26
= 120 SourceRefused(NotAccepted(Parse(Syntax(26))))
same F.c as syntax.c
same F.code as old
absent P.code P.gcno P.gcda Q.gcda
left 4

folder F.c=byte.c F.code=old
$ build F.c < left.txt
! cov: source: bad byte at byte 25
= 120 SourceRefused(NotAccepted(Lex(BadByte(25))))
same F.c as byte.c
same F.code as old
absent P.code P.gcno P.gcda Q.gcda
left 4

folder F.c=frame.c F.code=old
$ build F.c < left.txt
! cov: source: frame too large 4097
= 120 SourceRefused(NotAccepted(Lower(FrameTooLarge(0, 4097))))
same F.c as frame.c
same F.code as old
absent P.code P.gcno P.gcda Q.gcda
left 4

folder F.c=globals.c F.code=old
$ build F.c < left.txt
! cov: source: globals too large 1048577
= 120 SourceRefused(NotAccepted(Lower(GlobalsTooLarge(1048577))))
same F.c as globals.c
same F.code as old
absent P.code P.gcno P.gcda Q.gcda
left 4
",
        ],
    )?;
    assert_played(
        &rt,
        &[
            INPUTS,
            SOURCES,
            "

folder F.c=twice.c F.code=old
$ build --plain F.c < left.txt
! cov: source: twice case at byte 38
= 120 SourceRefused(NotAccepted(Types(TwiceCase(38))))
same F.c as twice.c
same F.code as old
absent P.code P.gcno P.gcda Q.gcda
left 4

folder F.c=goto.c F.code=old
$ build --plain F.c < left.txt
! cov: source: left out goto at byte 17
= 120 SourceRefused(NotAccepted(Lex(LeftOut(Goto, 17))))
same F.c as goto.c
same F.code as old
absent P.code P.gcno P.gcda Q.gcda
left 4

folder F.c=empty.c F.code=old
$ build --plain F.c < left.txt
! cov: source: no main at byte 0
= 120 SourceRefused(NotAccepted(Types(NoMain(0))))
same F.c as empty.c
same F.code as old
absent P.code P.gcno P.gcda Q.gcda
left 4

folder F.c=no_main.c F.code=old
$ build --plain F.c < left.txt
! cov: source: no main at byte 6
= 120 SourceRefused(NotAccepted(Types(NoMain(6))))
same F.c as no_main.c
same F.code as old
absent P.code P.gcno P.gcda Q.gcda
left 4

folder F.c=number.c F.code=old
$ build --plain F.c < left.txt
! cov: source: bad number at byte 24
= 120 SourceRefused(NotAccepted(Lex(BadNumber(24))))
same F.c as number.c
same F.code as old
absent P.code P.gcno P.gcda Q.gcda
left 4

folder F.c=unknown.c F.code=old
$ build --plain F.c < left.txt
! cov: source: unknown at byte 24
= 120 SourceRefused(NotAccepted(Types(Unknown(24))))
same F.c as unknown.c
same F.code as old
absent P.code P.gcno P.gcda Q.gcda
left 4

folder F.c=syntax.c F.code=old
$ build --plain F.c < left.txt
! cov: source: syntax at byte 26
= 120 SourceRefused(NotAccepted(Parse(Syntax(26))))
same F.c as syntax.c
same F.code as old
absent P.code P.gcno P.gcda Q.gcda
left 4

folder F.c=byte.c F.code=old
$ build --plain F.c < left.txt
! cov: source: bad byte at byte 25
= 120 SourceRefused(NotAccepted(Lex(BadByte(25))))
same F.c as byte.c
same F.code as old
absent P.code P.gcno P.gcda Q.gcda
left 4

folder F.c=frame.c F.code=old
$ build --plain F.c < left.txt
! cov: source: frame too large 4097
= 120 SourceRefused(NotAccepted(Lower(FrameTooLarge(0, 4097))))
same F.c as frame.c
same F.code as old
absent P.code P.gcno P.gcda Q.gcda
left 4

folder F.c=globals.c F.code=old
$ build --plain F.c < left.txt
! cov: source: globals too large 1048577
= 120 SourceRefused(NotAccepted(Lower(GlobalsTooLarge(1048577))))
same F.c as globals.c
same F.code as old
absent P.code P.gcno P.gcda Q.gcda
left 4
",
        ],
    )?;
    assert_played(
        &rt,
        &[
            INPUTS,
            SOURCES,
            "

folder F.c=twice.c F.code=old
$ cover F.c no.txt < left.txt
! cov: source: twice case at byte 38
= 120 SourceRefused(NotAccepted(Types(TwiceCase(38))))
same F.c as twice.c
same F.code as old
absent P.code P.gcno P.gcda Q.gcda
left 4

folder F.c=goto.c F.code=old
$ cover F.c no.txt < left.txt
! cov: source: left out goto at byte 17
= 120 SourceRefused(NotAccepted(Lex(LeftOut(Goto, 17))))
same F.c as goto.c
same F.code as old
absent P.code P.gcno P.gcda Q.gcda
left 4

folder F.c=empty.c F.code=old
$ cover F.c no.txt < left.txt
! cov: source: no main at byte 0
= 120 SourceRefused(NotAccepted(Types(NoMain(0))))
same F.c as empty.c
same F.code as old
absent P.code P.gcno P.gcda Q.gcda
left 4

folder F.c=no_main.c F.code=old
$ cover F.c no.txt < left.txt
! cov: source: no main at byte 6
= 120 SourceRefused(NotAccepted(Types(NoMain(6))))
same F.c as no_main.c
same F.code as old
absent P.code P.gcno P.gcda Q.gcda
left 4

folder F.c=number.c F.code=old
$ cover F.c no.txt < left.txt
! cov: source: bad number at byte 24
= 120 SourceRefused(NotAccepted(Lex(BadNumber(24))))
same F.c as number.c
same F.code as old
absent P.code P.gcno P.gcda Q.gcda
left 4

folder F.c=unknown.c F.code=old
$ cover F.c no.txt < left.txt
! cov: source: unknown at byte 24
= 120 SourceRefused(NotAccepted(Types(Unknown(24))))
same F.c as unknown.c
same F.code as old
absent P.code P.gcno P.gcda Q.gcda
left 4

folder F.c=syntax.c F.code=old
$ cover F.c no.txt < left.txt
! cov: source: syntax at byte 26
= 120 SourceRefused(NotAccepted(Parse(Syntax(26))))
same F.c as syntax.c
same F.code as old
absent P.code P.gcno P.gcda Q.gcda
left 4

folder F.c=byte.c F.code=old
$ cover F.c no.txt < left.txt
! cov: source: bad byte at byte 25
= 120 SourceRefused(NotAccepted(Lex(BadByte(25))))
same F.c as byte.c
same F.code as old
absent P.code P.gcno P.gcda Q.gcda
left 4

folder F.c=frame.c F.code=old
$ cover F.c no.txt < left.txt
! cov: source: frame too large 4097
= 120 SourceRefused(NotAccepted(Lower(FrameTooLarge(0, 4097))))
same F.c as frame.c
same F.code as old
absent P.code P.gcno P.gcda Q.gcda
left 4

folder F.c=globals.c F.code=old
$ cover F.c no.txt < left.txt
! cov: source: globals too large 1048577
= 120 SourceRefused(NotAccepted(Lower(GlobalsTooLarge(1048577))))
same F.c as globals.c
same F.code as old
absent P.code P.gcno P.gcda Q.gcda
left 4
",
        ],
    )
}
