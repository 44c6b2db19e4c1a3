//! The top call over objects that never fail.

use super::pieces::{LOOP, ON_AA};
use crate::perform_surely;
use cov_outside::{SureFolder, SureSink, SureSource};
use cov_program::End;
use std::alloc::{AllocError, Global};
use std::str;
use std::test::Fail;

/// The words of a line.
fn words_in(alloc: Global, line: &str) -> Result<Vec<String>, AllocError> {
    let mut all = Vec::new(alloc);
    for word in line.split_whitespace() {
        all.push(String::from_str(alloc, word)?)?;
    }
    Ok(all)
}

/// A file of a folder.
fn file_of(alloc: Global, name: &str, bytes: &[u8]) -> Result<(String, Vec<u8>), AllocError> {
    Ok((String::from_str(alloc, name)?, bytes.to_vec(alloc)?))
}

/// What stands in a piece of a session between its first line and its line `end`.
fn inside<'a>(piece: &'a str, first: &str) -> Option<&'a str> {
    piece.strip_prefix(first)?.strip_suffix("end\n")
}

#[test]
fn objects_that_never_fail_serve_too(rt: HostRuntime) -> Result<(), Fail> {
    let alloc = rt.alloc();
    let source = inside(LOOP, "\nfile P.c\n").ok_or("no source")?;
    let mut files = Vec::new(alloc);
    files.push(file_of(alloc, "P.c", source.as_bytes())?)?;
    files.push(file_of(alloc, "aa.txt", b"aa")?)?;
    let mut folder = SureFolder::new(alloc, files);
    let mut input = SureSource::new(Vec::new(alloc));
    let mut out = SureSink::new(alloc);
    let mut err = SureSink::new(alloc);
    let words = words_in(alloc, "cover P.c aa.txt")?;
    let end = perform_surely(alloc, &words, &mut input, &mut out, &mut err, &mut folder);
    let text = str::from_utf8(out.bytes())?;
    let report = text.strip_prefix("run aa.txt: returned 2, 0 bytes\n");
    let expected = inside(ON_AA, "\nfile on_aa\n").ok_or("no report")?;
    assert_eq!(rt; report, Some(expected));
    assert!(rt; matches!(end, End::Done));
    assert_eq!(rt; str::from_utf8(err.bytes())?, "");
    Ok(())
}
