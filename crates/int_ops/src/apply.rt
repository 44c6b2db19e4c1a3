//! Operators at a type: a number or a trap.

ghost use Rattle.std.specs.Prelude.{◌≡◌, ℤ, ◌+ℤ◌, ◌-ℤ◌, ◌*ℤ◌, IfOk};
ghost use Rattle.int_ops.specs.Ranges.{Range, IsNumber};
ghost use Rattle.int_ops.specs.Apply as spec;
ghost use Rattle.int_ops.specs.Apply.{
  is_past,
  quotient,
  remainder,
  settled,
  shifted_left,
  shifted_right,
};

use crate::exact;
use crate::operators::{ArithTrap, BinOp, UnOp};
use crate::ranges::{convert, is_in_range, is_signed, width};
use crate::types::IntType;

/// What an operator gives at a type. Both operands are from -2^63 to 2^64 - 1 and are converted to
/// the type first, but for a shift's right one. A comparison gives 0 or 1. Otherwise an exact
/// result outside a signed type is a trap, and one of an unsigned type or `_Bool` is converted.
pub fn binary(op: BinOp, t: IntType, a: i128, b: i128) -> Result<i128, ArithTrap>
    requires left { IsNumber a }
    requires right { IsNumber b }
    ensures value { result ≡ spec.binary op t a b }
    ensures number { IfOk result IsNumber }
{
    let left = convert(t, a);
    let right = convert(t, b);

    // The table of operators: those whose exact result a function of two numbers gives, the
    // comparisons, and those with rules of their own.
    macro_rules! by_operator {
        (
            exact { $($exact:ident $of:ident)* }
            tests { $($test:ident $sign:tt)* }
            own { $($own:ident $rule:ident $second:ident)* }
        ) => {
            match op {
                $(BinOp::$exact => settle(t, exact::$of(left, right)),)*
                $(BinOp::$test => Ok(if left $sign right { 1 } else { 0 }),)*
                $(BinOp::$own => $rule(t, left, $second),)*
            }
        };
    }
    by_operator!(
        exact { Add sum Sub difference And bits_of_both Xor bits_of_one Or bits_of_any }
        tests { Less < Greater > LessEqual <= GreaterEqual >= Equal == NotEqual != }
        own {
            Mul multiply right Div divide right Rem take_rest right
            Shl shift_left b Shr shift_right b
        }
    )
}

/// What an operator with one operand gives at a type, to which the operand, from -2^63 to 2^64 - 1,
/// is converted first.
pub fn unary(op: UnOp, t: IntType, a: i128) -> Result<i128, ArithTrap>
    requires { IsNumber a }
    ensures value { result ≡ spec.unary op t a }
    ensures number { IfOk result IsNumber }
{
    let operand = convert(t, a);
    match op {
        UnOp::Minus => settle(t, exact::negated(operand)),
        UnOp::Complement => settle(t, exact::complemented(operand)),
    }
}

/// The answer for an exact result.
fn settle(t: IntType, n: i128) -> Result<i128, ArithTrap>
    ensures value { result ≡ settled t n }
    ensures number { IfOk result IsNumber }
{
    if !is_signed(t) {
        return Ok(convert(t, n));
    }
    if is_in_range(t, n) {
        return Ok(n);
    }
    Err(ArithTrap::Overflow)
}

fn multiply(t: IntType, a: i128, b: i128) -> Result<i128, ArithTrap>
    requires left { Range t a }
    requires right { Range t b }
    ensures value { result ≡ settled t (a *ℤ b) }
    ensures number { IfOk result IsNumber }
{
    if is_signed(t) {
        return settle(t, exact::product(a, b));
    }
    Ok(convert(t, exact::low_product(a, b)))
}

fn divide(t: IntType, a: i128, b: i128) -> Result<i128, ArithTrap>
    requires left { IsNumber a }
    requires right { IsNumber b }
    ensures value { result ≡ quotient t a b }
    ensures number { IfOk result IsNumber }
{
    if b == 0 {
        return Err(ArithTrap::DivideByZero);
    }
    settle(t, exact::quotient(a, b))
}

fn take_rest(t: IntType, a: i128, b: i128) -> Result<i128, ArithTrap>
    requires left { IsNumber a }
    requires right { IsNumber b }
    ensures value { result ≡ remainder t a b }
    ensures number { IfOk result IsNumber }
{
    if b == 0 {
        return Err(ArithTrap::DivideByZero);
    }
    if is_in_range(t, exact::quotient(a, b)) {
        return settle(t, exact::remainder(a, b));
    }
    Err(ArithTrap::Overflow)
}

fn shift_left(t: IntType, a: i128, count: i128) -> Result<i128, ArithTrap>
    requires left { Range t a }
    ensures value { result ≡ shifted_left t a count }
    ensures number { IfOk result IsNumber }
{
    if passes_width(t, count) {
        return Err(ArithTrap::ShiftRange);
    }
    if a < 0 {
        return Err(ArithTrap::Overflow);
    }
    if is_signed(t) {
        return settle(t, exact::shifted_left(a, count as u32));
    }
    Ok(convert(t, exact::low_shifted_left(a, count as u32)))
}

fn shift_right(t: IntType, a: i128, by: i128) -> Result<i128, ArithTrap>
    requires left { IsNumber a }
    ensures value { result ≡ shifted_right t a by }
    ensures number { IfOk result IsNumber }
{
    if passes_width(t, by) {
        return Err(ArithTrap::ShiftRange);
    }
    settle(t, exact::shifted_right(a, by as u32))
}

/// A shift count is negative, or at least the width.
fn passes_width(t: IntType, count: i128) -> bool
    ensures { result ≡ is_past t count }
{
    count < 0 || i128::from(width(t)) <= count
}
