//! Readers of operations.

ghost use Rattle.std.specs.Prelude.{◌≡◌, Some, length, slice_get, IfOk};
ghost use Rattle.std.specs.Option.{option_map};
ghost use Rattle.code_file.specs.Decoding as made;
ghost use Rattle.code_file.specs.Reading as item;
ghost use Rattle.code_file.specs.Taking as spec;

use crate::fault::CodeFault;
use crate::op_items::{Fields, fields_of};
use crate::taking::{take_byte, take_number, take_type, take_word};
use cov_base::Refusal;
use gcov_items::Reader;
use int_ops::IntType;
use stack_ops::Op;
use std::alloc::Global;

/// The operation with this code, with any fields.
fn op_with(code: u8) -> Option<Op>
    ensures { option_map made.made_of result ≡ slice_get item.operations code }
{
    match code {
        0 => Some(Op::Push(0)),
        1 => Some(Op::Dup),
        2 => Some(Op::Drop),
        3 => Some(Op::Swap),
        4 => Some(Op::Over),
        5 => Some(Op::Convert(IntType::Int)),
        6 => Some(Op::Not),
        7 => Some(Op::LoadLocal(0)),
        8 => Some(Op::StoreLocal(0)),
        9 => Some(Op::LoadGlobal(0)),
        10 => Some(Op::StoreGlobal(0)),
        11 => Some(Op::CheckIndex(0, 0)),
        12 => Some(Op::LoadLocalAt(0, 0)),
        13 => Some(Op::StoreLocalAt(0, 0)),
        14 => Some(Op::LoadGlobalAt(0, 0)),
        15 => Some(Op::StoreGlobalAt(0, 0)),
        16 => Some(Op::Mul(IntType::Int, 0)),
        17 => Some(Op::Div(IntType::Int, 0)),
        18 => Some(Op::Rem(IntType::Int, 0)),
        19 => Some(Op::Add(IntType::Int, 0)),
        20 => Some(Op::Sub(IntType::Int, 0)),
        21 => Some(Op::Shl(IntType::Int, 0)),
        22 => Some(Op::Shr(IntType::Int, 0)),
        23 => Some(Op::Less(IntType::Int, 0)),
        24 => Some(Op::Greater(IntType::Int, 0)),
        25 => Some(Op::LessEqual(IntType::Int, 0)),
        26 => Some(Op::GreaterEqual(IntType::Int, 0)),
        27 => Some(Op::Equal(IntType::Int, 0)),
        28 => Some(Op::NotEqual(IntType::Int, 0)),
        29 => Some(Op::And(IntType::Int, 0)),
        30 => Some(Op::Xor(IntType::Int, 0)),
        31 => Some(Op::Or(IntType::Int, 0)),
        32 => Some(Op::Minus(IntType::Int, 0)),
        33 => Some(Op::Complement(IntType::Int, 0)),
        34 => Some(Op::GetChar),
        35 => Some(Op::PutChar(0)),
        36 => Some(Op::Jump(0)),
        37 => Some(Op::Back(0)),
        38 => Some(Op::IfZero(0)),
        39 => Some(Op::IfNot(0)),
        40 => Some(Op::CaseJump(0, 0)),
        41 => Some(Op::Call(0, 0)),
        42 => Some(Op::Return),
        43 => Some(Op::Exit),
        44 => Some(Op::Count(0)),
        45 => Some(Op::PathBegin),
        46 => Some(Op::PathPass(0)),
        _ => None,
    }
}

/// The operation with this word in place of its own.
fn of_word(op: Op, w: u32) -> Op
    ensures { result ≡ made.of_word op w }
{
    match op {
        Op::LoadLocal(_) => Op::LoadLocal(w),
        Op::StoreLocal(_) => Op::StoreLocal(w),
        Op::LoadGlobal(_) => Op::LoadGlobal(w),
        Op::StoreGlobal(_) => Op::StoreGlobal(w),
        Op::PutChar(_) => Op::PutChar(w),
        Op::Jump(_) => Op::Jump(w),
        Op::Back(_) => Op::Back(w),
        Op::IfZero(_) => Op::IfZero(w),
        Op::IfNot(_) => Op::IfNot(w),
        Op::Count(_) => Op::Count(w),
        Op::PathPass(_) => Op::PathPass(w),
        _ => op,
    }
}

/// The operation with these words in place of its own.
fn of_words(op: Op, w: u32, v: u32) -> Op
    ensures { result ≡ made.of_words op w v }
{
    match op {
        Op::CheckIndex(_, _) => Op::CheckIndex(w, v),
        Op::LoadLocalAt(_, _) => Op::LoadLocalAt(w, v),
        Op::StoreLocalAt(_, _) => Op::StoreLocalAt(w, v),
        Op::LoadGlobalAt(_, _) => Op::LoadGlobalAt(w, v),
        Op::StoreGlobalAt(_, _) => Op::StoreGlobalAt(w, v),
        Op::Call(_, _) => Op::Call(w, v),
        _ => op,
    }
}

/// The operation with this type and line in place of its own.
fn at_line(op: Op, t: IntType, line: u32) -> Op
    ensures { result ≡ made.at_line op t line }
{
    match op {
        Op::Mul(_, _) => Op::Mul(t, line),
        Op::Div(_, _) => Op::Div(t, line),
        Op::Rem(_, _) => Op::Rem(t, line),
        Op::Add(_, _) => Op::Add(t, line),
        Op::Sub(_, _) => Op::Sub(t, line),
        Op::Shl(_, _) => Op::Shl(t, line),
        Op::Shr(_, _) => Op::Shr(t, line),
        Op::Less(_, _) => Op::Less(t, line),
        Op::Greater(_, _) => Op::Greater(t, line),
        Op::LessEqual(_, _) => Op::LessEqual(t, line),
        Op::GreaterEqual(_, _) => Op::GreaterEqual(t, line),
        Op::Equal(_, _) => Op::Equal(t, line),
        Op::NotEqual(_, _) => Op::NotEqual(t, line),
        Op::And(_, _) => Op::And(t, line),
        Op::Xor(_, _) => Op::Xor(t, line),
        Op::Or(_, _) => Op::Or(t, line),
        Op::Minus(_, _) => Op::Minus(t, line),
        Op::Complement(_, _) => Op::Complement(t, line),
        _ => op,
    }
}

/// The fields of an operation like this one; a field that is none has the fault.
fn take_fields(reader: &mut Reader<'_>, fault: CodeFault, op: Op) -> Result<Op, Refusal<CodeFault>>
    ensures { spec.Takes (λ o. o) (item.with_fields fault (Some (made.made_of op)))
        reader.old reader.new result }
{
    match fields_of(&op) {
        Fields::None => Ok(op),
        Fields::Number(_) => Ok(Op::Push(take_number(reader, fault)?)),
        Fields::Type(_) => Ok(Op::Convert(take_type(reader, fault)?)),
        Fields::At(_, _) => {
            let t = take_type(reader, fault)?;
            let line = take_word(reader)?;
            Ok(at_line(op, t, line))
        }
        Fields::Word(_) => {
            let w = take_word(reader)?;
            Ok(of_word(op, w))
        }
        Fields::Words(_, _) => {
            let w = take_word(reader)?;
            let v = take_word(reader)?;
            Ok(of_words(op, w, v))
        }
        Fields::Case(_, _) => {
            let n = take_number(reader, fault)?;
            let w = take_word(reader)?;
            Ok(Op::CaseJump(n, w))
        }
    }
}

/// The next operation; its faults stand at its first byte.
fn take_op(reader: &mut Reader<'_>) -> Result<Op, Refusal<CodeFault>>
    ensures { spec.Takes (λ o. o) item.with_op reader.old reader.new result }
{
    let fault = CodeFault::Opcode(reader.place());
    let code = take_byte(reader)?;
    match op_with(code) {
        Some(op) => take_fields(reader, fault, op),
        None => Err(Refusal::Refused(fault)),
    }
}

/// So many operations, with their places.
pub fn take_ops(
    alloc: Global,
    reader: &mut Reader<'_>,
    count: u32,
) -> Result<(Vec<Op>, Vec<u64>), Refusal<CodeFault>>
    ensures value { spec.Takes (λ x. (x.0.items, x.1.items)) (spec.with_placed_ops count)
        reader.old reader.new result }
    ensures ops { IfOk result (λ x. length x.0.items ≡ count) }
    ensures places { IfOk result (λ x. length x.1.items ≡ count) }
{
    let mut ops = Vec::new(alloc);
    let mut places = Vec::new(alloc);
    for _ in 0..count {
        places.push(reader.place())?;
        ops.push(take_op(reader)?)?;
    }
    Ok((ops, places))
}
