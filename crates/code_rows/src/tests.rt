//! Codes in memory, checked.

use code_file::{Checked, CodeFault};
use cov_base::{NoMemory, Refusal};
use stack_ops::{Code, FunctionCode, Op};
use std::alloc::Global;
use std::test::Fail;

/// A plain code of one function that has one cell and room for two operands.
fn code_of(alloc: Global, ops: &[Op]) -> Result<Code, NoMemory> {
    let mut functions = Vec::new(alloc);
    functions.push(FunctionCode {
        params: 0,
        cells: 1,
        depth: 2,
        gives: true,
        checksum: 0,
        counters: 0,
        paths: 0,
        passes: 0,
        ops: Vec::from_slice(alloc, ops)?,
        table: Vec::new(alloc),
    })?;
    Ok(Code {
        stamp: 0,
        covered: false,
        main: 0,
        globals: Vec::from_slice(alloc, &[7])?,
        functions,
    })
}

/// The fault of the code of these operations, where it has one.
fn fault_of(alloc: Global, ops: &[Op]) -> Result<Option<CodeFault>, NoMemory> {
    match Checked::of(alloc, code_of(alloc, ops)?) {
        Ok(_) => Ok(None),
        Err(Refusal::Refused(fault)) => Ok(Some(fault)),
        Err(Refusal::NoMemory) => Err(NoMemory),
    }
}

#[test]
fn each_rule_is_told_at_its_instruction(rt: HostRuntime) -> Result<(), Fail> {
    let rows: &[(&[Op], Option<CodeFault>)] = &[
        (&[Op::Push(0), Op::Return], None),
        (&[Op::Back(0)], None),
        (&[Op::Push(0), Op::Dup, Op::Exit], None),
        (&[], Some(CodeFault::Field(0))),
        (
            &[Op::Push(18_446_744_073_709_551_616), Op::Return],
            Some(CodeFault::Opcode(0)),
        ),
        (
            &[Op::Push(0), Op::Jump(1), Op::Return],
            Some(CodeFault::Jump(1)),
        ),
        (&[Op::Push(0), Op::Dup], Some(CodeFault::Jump(1))),
        (&[Op::Back(1), Op::Return], Some(CodeFault::BackJump(0))),
        (&[Op::GetChar, Op::Back(0)], Some(CodeFault::Depth(1))),
        (
            &[
                Op::GetChar,
                Op::IfZero(3),
                Op::Push(1),
                Op::Push(2),
                Op::Return,
            ],
            Some(CodeFault::Depth(3)),
        ),
        (
            &[Op::Push(0), Op::Dup, Op::Dup, Op::Exit],
            Some(CodeFault::Depth(2)),
        ),
        (&[Op::LoadLocal(1), Op::Return], Some(CodeFault::Cell(0))),
        (
            &[Op::Count(0), Op::Push(1), Op::Return],
            Some(CodeFault::Counter(0)),
        ),
        (
            &[Op::PathBegin, Op::Push(1), Op::Return],
            Some(CodeFault::Row(0)),
        ),
    ];
    for (ops, expected) in rows {
        assert_eq!(rt; fault_of(rt.alloc(), ops)?, *expected);
    }
    Ok(())
}
