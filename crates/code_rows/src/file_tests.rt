//! Code files, read and written.

use crate::rewriting::rewritten;
use code_file::{Checked, CodeFault, read_code, write_code};
use cov_base::{NoMemory, Refusal};
use stack_ops::{Code, FunctionCode, Op};
use std::alloc::Global;
use std::test::Fail;

/// The file of a plain code with the stamp 0 and one function: Push 0, Return.
const GIVES_0: [u8; 75] = [
    0x64, 0x6f, 0x63, 0x70, 0x72, 0x30, 0x32, 0x50, 0, 0, 0, 0, 0, 0, 0, 0, 0, 0, 0, 0, 0, 0, 0, 0,
    1, 0, 0, 0, 0, 0, 0, 0, 0, 0, 0, 0, 1, 0, 0, 0, 1, 0, 0, 0, 0, 0, 0, 0, 0, 0, 0, 0, 0, 0, 0, 0,
    0, 0, 0, 0, 2, 0, 0, 0, 0, 0, 0, 0, 0, 0, 0, 0, 0, 0, 42,
];

/// The fault of these bytes, where they are no code file.
fn fault_of(alloc: Global, bytes: &[u8]) -> Result<Option<CodeFault>, NoMemory> {
    match read_code(alloc, bytes) {
        Ok(_) => Ok(None),
        Err(Refusal::Refused(fault)) => Ok(Some(fault)),
        Err(Refusal::NoMemory) => Err(NoMemory),
    }
}

/// The fault of these bytes with another byte at a place.
fn fault_with(
    alloc: Global,
    bytes: &[u8],
    at: usize,
    byte: u8,
) -> Result<Option<CodeFault>, NoMemory> {
    let mut changed = Vec::from_slice(alloc, bytes)?;
    if at < changed.len() {
        changed[at] = byte;
    }
    fault_of(alloc, &changed)
}

#[test]
fn each_front_is_short_and_one_byte_more_is_extra(rt: HostRuntime) -> Result<(), Fail> {
    for n in 0..75 {
        assert_eq!(rt;
            fault_of(rt.alloc(), &GIVES_0[..n])?,
            Some(CodeFault::Short(n as u64))
        );
    }
    assert_eq!(rt; fault_of(rt.alloc(), &GIVES_0)?, None);
    let mut more = Vec::from_slice(rt.alloc(), &GIVES_0)?;
    more.push(0)?;
    assert_eq!(rt; fault_of(rt.alloc(), &more)?, Some(CodeFault::Extra(75)));
    Ok(())
}

#[test]
fn changed_bytes_are_told_at_their_items(rt: HostRuntime) -> Result<(), Fail> {
    let rows = [
        (0, 0x65, CodeFault::Magic(0)),
        (6, 0x31, CodeFault::Version(4)),
        (12, 2, CodeFault::Field(12)),
        (16, 1, CodeFault::Field(16)),
        (28, 1, CodeFault::Field(32)),
        (36, 0, CodeFault::Depth(64)),
        (40, 2, CodeFault::Field(40)),
        (48, 1, CodeFault::Field(48)),
        (56, 1, CodeFault::Field(56)),
        (60, 0, CodeFault::Field(60)),
        (60, 3, CodeFault::Short(75)),
        (64, 0x2f, CodeFault::Opcode(64)),
        (65, 1, CodeFault::Opcode(64)),
        (65, 2, CodeFault::Opcode(64)),
        (74, 0x02, CodeFault::Jump(74)),
    ];
    for (at, byte, expected) in rows {
        assert_eq!(rt; fault_with(rt.alloc(), &GIVES_0, at, byte)?, Some(expected));
    }
    Ok(())
}

/// A code that counts, with three globals and a table of two words: its begin row has two entries,
/// its other row none.
fn covered_code(alloc: Global) -> Result<Code, NoMemory> {
    let ops = [
        Op::PathBegin,
        Op::PathPass(0),
        Op::Count(0),
        Op::Push(-5),
        Op::Return,
    ];
    let mut functions = Vec::new(alloc);
    functions.push(FunctionCode {
        params: 0,
        cells: 1,
        depth: 1,
        gives: true,
        checksum: 7,
        counters: 1,
        paths: 65,
        passes: 1,
        ops: Vec::from_slice(alloc, &ops)?,
        table: Vec::from_slice(alloc, &[2, 0, 1, 0, 1, 1, 0, 0])?,
    })?;
    Ok(Code {
        stamp: 9,
        covered: true,
        main: 0,
        globals: Vec::from_slice(alloc, &[7, -1, 9_223_372_036_854_775_808])?,
        functions,
    })
}

/// The file of the code, where it breaks no rule; else no bytes.
fn written(alloc: Global, code: Code) -> Result<Vec<u8>, NoMemory> {
    match Checked::of(alloc, code) {
        Ok(checked) => write_code(alloc, checked.code()),
        Err(Refusal::Refused(_)) => Ok(Vec::new(alloc)),
        Err(Refusal::NoMemory) => Err(NoMemory),
    }
}

#[test]
fn a_covered_code_is_read_as_it_was_written(rt: HostRuntime) -> Result<(), Fail> {
    let bytes = written(rt.alloc(), covered_code(rt.alloc())?)?;
    assert_eq!(rt; bytes.len(), 177);
    match rewritten(rt.alloc(), &bytes)? {
        Some(again) => assert_eq!(rt; again.as_slice(), bytes.as_slice()),
        None => assert_eq!(rt; bytes.len(), 0),
    }
    Ok(())
}

#[test]
fn entries_of_tables_are_told_at_their_first_bytes(rt: HostRuntime) -> Result<(), Fail> {
    let bytes = written(rt.alloc(), covered_code(rt.alloc())?)?;
    let rows = [
        (113, 3, CodeFault::Field(113)),
        (121, 2, CodeFault::Row(121)),
        (145, 0, CodeFault::Row(145)),
        (169, 3, CodeFault::Field(169)),
        (169, 1, CodeFault::Short(177)),
    ];
    for (at, byte, expected) in rows {
        assert_eq!(rt; fault_with(rt.alloc(), &bytes, at, byte)?, Some(expected));
    }
    Ok(())
}
