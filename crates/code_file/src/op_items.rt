//! How an operation stands in a file: its code, and then its fields.

ghost use Rattle.std.specs.Prelude.{◌≡◌};
ghost use Rattle.code_file.specs.OpItems as spec;

use int_ops::IntType;
use stack_ops::Op;

/// The fields of an operation, in their order.
#[derive(Clone, Copy, Debug, PartialEq, Eq)]
pub enum Fields {
    None,
    Number(i128),
    Type(IntType),
    /// A type, and the line of a trap.
    At(IntType, u32),
    /// A cell, an instruction, a counter, a row or a line.
    Word(u32),
    Words(u32, u32),
    /// The number of a case and the instruction to which it goes.
    Case(i128, u32),
}

/// The code of the operation: its number among the operations, from 0.
pub fn op_code(op: &Op) -> u8
    ensures { result ≡ spec.op_code op.now }
{
    match *op {
        Op::Push(_) => 0,
        Op::Dup => 1,
        Op::Drop => 2,
        Op::Swap => 3,
        Op::Over => 4,
        Op::Convert(_) => 5,
        Op::Not => 6,
        Op::LoadLocal(_) => 7,
        Op::StoreLocal(_) => 8,
        Op::LoadGlobal(_) => 9,
        Op::StoreGlobal(_) => 10,
        Op::CheckIndex(_, _) => 11,
        Op::LoadLocalAt(_, _) => 12,
        Op::StoreLocalAt(_, _) => 13,
        Op::LoadGlobalAt(_, _) => 14,
        Op::StoreGlobalAt(_, _) => 15,
        Op::Mul(_, _) => 16,
        Op::Div(_, _) => 17,
        Op::Rem(_, _) => 18,
        Op::Add(_, _) => 19,
        Op::Sub(_, _) => 20,
        Op::Shl(_, _) => 21,
        Op::Shr(_, _) => 22,
        Op::Less(_, _) => 23,
        Op::Greater(_, _) => 24,
        Op::LessEqual(_, _) => 25,
        Op::GreaterEqual(_, _) => 26,
        Op::Equal(_, _) => 27,
        Op::NotEqual(_, _) => 28,
        Op::And(_, _) => 29,
        Op::Xor(_, _) => 30,
        Op::Or(_, _) => 31,
        Op::Minus(_, _) => 32,
        Op::Complement(_, _) => 33,
        Op::GetChar => 34,
        Op::PutChar(_) => 35,
        Op::Jump(_) => 36,
        Op::Back(_) => 37,
        Op::IfZero(_) => 38,
        Op::IfNot(_) => 39,
        Op::CaseJump(_, _) => 40,
        Op::Call(_, _) => 41,
        Op::Return => 42,
        Op::Exit => 43,
        Op::Count(_) => 44,
        Op::PathBegin => 45,
        Op::PathPass(_) => 46,
    }
}

/// The fields of the operation.
pub fn fields_of(op: &Op) -> Fields
    ensures { result ≡ spec.fields_of op.now }
{
    match *op {
        Op::Push(n) => Fields::Number(n),
        Op::Dup => Fields::None,
        Op::Drop => Fields::None,
        Op::Swap => Fields::None,
        Op::Over => Fields::None,
        Op::Convert(t) => Fields::Type(t),
        Op::Not => Fields::None,
        Op::LoadLocal(w) => Fields::Word(w),
        Op::StoreLocal(w) => Fields::Word(w),
        Op::LoadGlobal(w) => Fields::Word(w),
        Op::StoreGlobal(w) => Fields::Word(w),
        Op::CheckIndex(w, v) => Fields::Words(w, v),
        Op::LoadLocalAt(w, v) => Fields::Words(w, v),
        Op::StoreLocalAt(w, v) => Fields::Words(w, v),
        Op::LoadGlobalAt(w, v) => Fields::Words(w, v),
        Op::StoreGlobalAt(w, v) => Fields::Words(w, v),
        Op::Mul(t, line) => Fields::At(t, line),
        Op::Div(t, line) => Fields::At(t, line),
        Op::Rem(t, line) => Fields::At(t, line),
        Op::Add(t, line) => Fields::At(t, line),
        Op::Sub(t, line) => Fields::At(t, line),
        Op::Shl(t, line) => Fields::At(t, line),
        Op::Shr(t, line) => Fields::At(t, line),
        Op::Less(t, line) => Fields::At(t, line),
        Op::Greater(t, line) => Fields::At(t, line),
        Op::LessEqual(t, line) => Fields::At(t, line),
        Op::GreaterEqual(t, line) => Fields::At(t, line),
        Op::Equal(t, line) => Fields::At(t, line),
        Op::NotEqual(t, line) => Fields::At(t, line),
        Op::And(t, line) => Fields::At(t, line),
        Op::Xor(t, line) => Fields::At(t, line),
        Op::Or(t, line) => Fields::At(t, line),
        Op::Minus(t, line) => Fields::At(t, line),
        Op::Complement(t, line) => Fields::At(t, line),
        Op::GetChar => Fields::None,
        Op::PutChar(w) => Fields::Word(w),
        Op::Jump(w) => Fields::Word(w),
        Op::Back(w) => Fields::Word(w),
        Op::IfZero(w) => Fields::Word(w),
        Op::IfNot(w) => Fields::Word(w),
        Op::CaseJump(n, w) => Fields::Case(n, w),
        Op::Call(w, v) => Fields::Words(w, v),
        Op::Return => Fields::None,
        Op::Exit => Fields::None,
        Op::Count(w) => Fields::Word(w),
        Op::PathBegin => Fields::None,
        Op::PathPass(w) => Fields::Word(w),
    }
}
