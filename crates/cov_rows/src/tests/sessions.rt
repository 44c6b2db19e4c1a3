//! What is told of sessions that come otherwise.

use command_sessions::play;
use std::process::Abort;
use std::test::Fail;

/// Asserts what is told of a session.
fn assert_tells(
    rt: &(impl AllocGlobal + Abort),
    session: &str,
    expected: &str,
) -> Result<(), Fail> {
    let told = play(rt.alloc(), &[session])?;
    assert_eq!(rt; told.as_str(), expected, "of {session:?}");
    Ok(())
}

#[test]
fn what_comes_otherwise_is_told(rt: HostRuntime) -> Result<(), Fail> {
    assert_tells(
        &rt,
        "$ build Q.c\n! cov: missing Q.c\n= 0 Done\n",
        r#"line 3 (= 0 Done): answer: expected "Done", came "Missing(\"Q.c\")""#,
    )?;
    assert_tells(
        &rt,
        "$ frob\n= 0 Usage(UnknownCommand)\n",
        r#"line 2 (= 0 Usage(UnknownCommand)): status: expected "0", came "120""#,
    )?;
    assert_tells(
        &rt,
        "$ build Q.c\n! cov: missing P.c\n= 120 Missing(\"Q.c\")\n",
        r#"line 3 (= 120 Missing("Q.c")): error output from byte 13 on: expected "P.c\n", came "Q.c\n""#,
    )?;
    assert_tells(
        &rt,
        "$ build Q.c\n! cov: missing Q.c\n> x\n= 120 Missing(\"Q.c\")\n",
        r#"line 4 (= 120 Missing("Q.c")): output from byte 0 on: expected "x\n", came """#,
    )?;
    assert_tells(
        &rt,
        "$ build Q.c\n! cov: missing Q.c\nmore\n= 120 Missing(\"Q.c\")\n",
        r#"line 4 (= 120 Missing("Q.c")): more output from byte 0 on: expected "", came """#,
    )
}

#[test]
fn files_that_are_otherwise_are_told(rt: HostRuntime) -> Result<(), Fail> {
    assert_tells(
        &rt,
        "file a \"xy\"\nfile b \"xz\"\nfolder a\nsame a as b\n",
        r#"line 4 (same a as b): a from byte 1 on: expected "z", came "y""#,
    )?;
    assert_tells(
        &rt,
        "file a \"x\"\nfolder a\nsame a\nchanged a\n",
        r#"line 4 (changed a): the same file from byte 1 on: expected "", came """#,
    )?;
    assert_tells(
        &rt,
        "folder\nthere a\n",
        r#"line 2 (there a): the folder has no "a""#,
    )?;
    assert_tells(
        &rt,
        "file a \"x\"\nfolder b=a\nabsent a b\n",
        r#"line 3 (absent a b): the folder has "b""#,
    )?;
    assert_tells(
        &rt,
        "hex a\n61 62\nend\nsize a 3\n",
        r#"line 4 (size a 3): size: expected "3", came "2""#,
    )
}

#[test]
fn sessions_that_are_none_are_told(rt: HostRuntime) -> Result<(), Fail> {
    assert_tells(
        &rt,
        "frob\n",
        r#"line 1 (frob): no line of a session is "frob""#,
    )?;
    assert_tells(
        &rt,
        "cut a x\n",
        r#"line 1 (cut a x): no line of a session is "cut a x""#,
    )?;
    assert_tells(&rt, "hex a\n6x\nend\n", r#"line 2 (6x): no byte "6x""#)?;
    assert_tells(&rt, "file a\nend \n", r#"no line ends "a""#)?;
    assert_tells(
        &rt,
        "$ frob\n$ frob\n",
        r#"line 2 ($ frob): the session doesn't tell the answer "Usage(UnknownCommand)""#,
    )?;
    assert_tells(
        &rt,
        "$ frob\n",
        r#"the session doesn't tell the answer "Usage(UnknownCommand)""#,
    )?;
    assert_tells(
        &rt,
        "= 0 Done\n",
        r#"line 1 (= 0 Done): no command stands "before""#,
    )?;
    assert_tells(
        &rt,
        "fail input 0\n",
        r#"nothing fails behind the last line "fail""#,
    )
}
