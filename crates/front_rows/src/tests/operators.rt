//! Integer types, conversions and operators.

ghost use Rattle.int_ops.specs.Ranges.{IsNumber};
ghost use Rattle.std.specs.Prelude.{IfOk};

use super::operator_rows::{BINARY, UNARY};
use int_ops::{
    ArithTrap, BinOp, IntType, Num, UnOp, binary, common_type, convert, greatest, is_in_range,
    is_signed, least, promoted, unary, width,
};
use std::alloc::Global;
use std::test::*;

#[test]
fn quotients_and_shifts_trap_where_c_leaves_them_undefined(rt: HostRuntime) -> Result<(), Fail> {
    let rows = [
        (BinOp::Div, IntType::Int, -7, 2, Ok(-3)),
        (BinOp::Rem, IntType::Int, -7, 2, Ok(-1)),
        (
            BinOp::Div,
            IntType::Int,
            -2_147_483_648,
            -1,
            Err(ArithTrap::Overflow),
        ),
        (
            BinOp::Rem,
            IntType::Int,
            -2_147_483_648,
            -1,
            Err(ArithTrap::Overflow),
        ),
        (BinOp::Div, IntType::Int, 1, 0, Err(ArithTrap::DivideByZero)),
        (BinOp::Shl, IntType::Int, 1, 31, Err(ArithTrap::Overflow)),
        (BinOp::Shl, IntType::UnsignedInt, 1, 31, Ok(2_147_483_648)),
        (BinOp::Shl, IntType::Int, 1, 32, Err(ArithTrap::ShiftRange)),
        (BinOp::Shl, IntType::Int, -1, 0, Err(ArithTrap::Overflow)),
        (BinOp::Shr, IntType::Int, -8, 1, Ok(-4)),
        (BinOp::Less, IntType::UnsignedInt, -1, 1, Ok(0)),
    ];
    for (op, t, a, b, want) in rows {
        assert_eq!(rt; binary(op, t, a, b), want);
    }
    Ok(())
}

#[test]
fn conversions_keep_the_number_modulo_two_to_the_width(rt: HostRuntime) -> Result<(), Fail> {
    let rows = [
        (IntType::Char, 200, -56),
        (IntType::Bool, 256, 1),
        (IntType::Bool, -1, 1),
        (IntType::Bool, 0, 0),
        (IntType::UnsignedShort, -1, 65_535),
        (IntType::Short, 32_768, -32_768),
        (IntType::Int, 4_294_967_295, -1),
        (IntType::Long, 18_446_744_073_709_551_615, -1),
        (IntType::UnsignedLong, -1, 18_446_744_073_709_551_615),
        (IntType::UnsignedInt, -9_223_372_036_854_775_808, 0),
    ];
    for (t, n, want) in rows {
        assert_eq!(rt; convert(t, n), want);
    }
    assert_eq!(rt; Num::<8, 1>::wrap(200).get(), -56);
    assert_eq!(rt; Num::<64, 0>::wrap(-1).get(), 18_446_744_073_709_551_615);
    Ok(())
}

#[test]
fn operands_meet_in_their_common_type(rt: HostRuntime) -> Result<(), Fail> {
    let rows = [
        (IntType::UnsignedInt, IntType::Long, IntType::Long),
        (IntType::UnsignedShort, IntType::Bool, IntType::Int),
        (IntType::Char, IntType::SignedChar, IntType::Int),
        (IntType::Int, IntType::UnsignedInt, IntType::UnsignedInt),
        (IntType::Long, IntType::UnsignedLong, IntType::UnsignedLong),
        (IntType::UnsignedLong, IntType::Short, IntType::UnsignedLong),
    ];
    for (a, b, want) in rows {
        assert_eq!(rt; common_type(a, b), want);
        assert_eq!(rt; common_type(b, a), want);
    }
    assert_eq!(rt; promoted(IntType::UnsignedShort), IntType::Int);
    assert_eq!(rt; promoted(IntType::UnsignedInt), IntType::UnsignedInt);
    Ok(())
}

#[test]
fn each_type_has_its_range_and_its_code(rt: HostRuntime) -> Result<(), Fail> {
    let rows = [
        (IntType::Bool, 0, 1),
        (IntType::Char, -128, 127),
        (IntType::SignedChar, -128, 127),
        (IntType::UnsignedChar, 0, 255),
        (IntType::Short, -32_768, 32_767),
        (IntType::UnsignedShort, 0, 65_535),
        (IntType::Int, -2_147_483_648, 2_147_483_647),
        (IntType::UnsignedInt, 0, 4_294_967_295),
        (
            IntType::Long,
            -9_223_372_036_854_775_808,
            9_223_372_036_854_775_807,
        ),
        (IntType::UnsignedLong, 0, 18_446_744_073_709_551_615),
    ];
    let mut code = 0;
    for (t, low, high) in rows {
        assert_eq!(rt; least(t), low);
        assert_eq!(rt; greatest(t), high);
        assert_eq!(rt; is_signed(t), low < 0);
        assert!(rt; is_in_range(t, high));
        assert!(rt; !is_in_range(t, 18_446_744_073_709_551_616));
        assert_eq!(rt; t.code(), code);
        assert_eq!(rt; IntType::from_code(code), Some(t));
        code = code.saturating_add(1);
    }
    assert_eq!(rt; width(IntType::Bool), 1);
    assert_eq!(rt; width(IntType::Short), 16);
    assert_eq!(rt; IntType::from_code(10), None);
    assert_eq!(rt; BinOp::Or.code(), 15);
    assert_eq!(rt; BinOp::from_code(15), Some(BinOp::Or));
    assert_eq!(rt; BinOp::from_code(16), None);
    assert_eq!(rt; UnOp::Complement.code(), 1);
    assert_eq!(rt; ArithTrap::ShiftRange.code(), 2);
    Ok(())
}

#[test]
fn operators_at_the_ends_of_each_range(rt: HostRuntime) -> Result<(), Fail> {
    for line in BINARY.lines() {
        let mut words = line.split(' ');
        let t = type_in(words.next())?;
        let a = number_in(words.next())?;
        let b = number_in(words.next())?;
        for code in 0..16 {
            let op = BinOp::from_code(code).ok_or("no operator")?;
            let answer = text_of(rt.alloc(), binary(op, t, a, b))?;
            assert_eq!(rt; words.next(), Some(answer.as_str()), "{op:?} in {line}");
        }
    }
    for line in UNARY.lines() {
        let mut words = line.split(' ');
        let t = type_in(words.next())?;
        let a = number_in(words.next())?;
        for op in [UnOp::Minus, UnOp::Complement] {
            let answer = text_of(rt.alloc(), unary(op, t, a))?;
            assert_eq!(rt; words.next(), Some(answer.as_str()), "{op:?} in {line}");
        }
    }
    Ok(())
}

fn type_in(word: Option<&str>) -> Result<IntType, Fail> {
    let code = word.ok_or("no type")?.parse::<u8>()?;
    Ok(IntType::from_code(code).ok_or("no type of this code")?)
}

/// A number of some type.
fn number_in(word: Option<&str>) -> Result<i128, Fail>
    ensures { IfOk result IsNumber }
{
    let number = word.ok_or("no number")?.parse::<i128>()?;
    if number < least(IntType::Long) {
        return Err(Fail::from("below every type"));
    }
    if greatest(IntType::UnsignedLong) < number {
        return Err(Fail::from("above every type"));
    }
    Ok(number)
}

fn text_of(alloc: Global, answer: Result<i128, ArithTrap>) -> Result<String, Fail> {
    match answer {
        Ok(number) => Ok(number.to_string(alloc)?),
        Err(ArithTrap::Overflow) => Ok(String::from_str(alloc, "overflow")?),
        Err(ArithTrap::DivideByZero) => Ok(String::from_str(alloc, "zero")?),
        Err(ArithTrap::ShiftRange) => Ok(String::from_str(alloc, "shift")?),
    }
}
