//! Operators and conversions on numbers of int, where the answer is told at once.

ghost use Rattle.std.specs.Prelude.{◌≡◌, IfSome, Ok};
ghost use Rattle.int_ops.specs.Apply.{applied, binary, unary};
ghost use Rattle.int_ops.specs.Conversion.{convert};
ghost use Rattle.int_ops.specs.Ranges.{IsNumber};
ghost use Rattle.int_ops.specs.declared.types.IntType.TheVariants as type;
ghost use Rattle.stack_machine.specs.Ints.{IsInt};

use int_ops::{BinOp, IntType, UnOp};

/// What an operator gives at a type, where the type is int, the operands and the answer are numbers
/// of int, and the operator is none of the seldom ones.
#[inline(always)]
pub(crate) fn quick_of(op: BinOp, t: IntType, a: i128, b: i128) -> Option<i64>
    ensures { IfSome result (λ n. IsInt n × (binary op t a b ≡ Ok n)) }
{
    let IntType::Int = t else {
        return None;
    };
    let Ok(left) = i32::try_from(a) else {
        return None;
    };
    let Ok(right) = i32::try_from(b) else {
        return None;
    };
    quick(op, left, right)
}

/// The same of two numbers of int.
#[inline(always)]
fn quick(op: BinOp, a: i32, b: i32) -> Option<i64>
    ensures { IfSome result (λ n. IsInt n × (applied op type.Int a b b ≡ Ok n)) }
{
    match op {
        BinOp::Mul => fitting(i64::from(a) * i64::from(b)),
        BinOp::Add => fitting(i64::from(a) + i64::from(b)),
        BinOp::Sub => fitting(i64::from(a) - i64::from(b)),
        BinOp::Less => Some(if a < b { 1 } else { 0 }),
        BinOp::Greater => Some(if a > b { 1 } else { 0 }),
        BinOp::LessEqual => Some(if a <= b { 1 } else { 0 }),
        BinOp::GreaterEqual => Some(if a >= b { 1 } else { 0 }),
        BinOp::Equal => Some(if a == b { 1 } else { 0 }),
        BinOp::NotEqual => Some(if a != b { 1 } else { 0 }),
        BinOp::And | BinOp::Xor | BinOp::Or => quick_bits(op, a, b),
        _ => None,
    }
}

/// The number where it is one of int.
#[inline(always)]
fn fitting(n: i64) -> Option<i64>
    ensures { IfSome result (λ m. (m ≡ n) × IsInt n) }
{
    if n < -2_147_483_648 {
        return None;
    }
    if n > 2_147_483_647 {
        return None;
    }
    Some(n)
}

/// The operators bit by bit, on two numbers that are not negative.
#[inline(always)]
fn quick_bits(op: BinOp, a: i32, b: i32) -> Option<i64>
    ensures { IfSome result (λ n. IsInt n × (applied op type.Int a b b ≡ Ok n)) }
{
    let Ok(left) = u32::try_from(a) else {
        return None;
    };
    let Ok(right) = u32::try_from(b) else {
        return None;
    };
    match op {
        BinOp::And => Some(i64::from(left & right)),
        BinOp::Xor => fitting(i64::from(left ^ right)),
        BinOp::Or => fitting(i64::from(left | right)),
        _ => None,
    }
}

/// The same of an operator with one operand.
#[inline(always)]
pub(crate) fn quick_one(op: UnOp, t: IntType, a: i128) -> Option<i64>
    ensures { IfSome result (λ n. IsInt n × (unary op t a ≡ Ok n)) }
{
    let UnOp::Minus = op else {
        return None;
    };
    let IntType::Int = t else {
        return None;
    };
    let Ok(operand) = i32::try_from(a) else {
        return None;
    };
    fitting(-i64::from(operand))
}

/// What a number becomes in a type.
#[inline(always)]
pub(crate) fn converted(t: IntType, a: i128) -> i128
    ensures value { result ≡ convert t a }
    ensures number { IsNumber result }
{
    if let IntType::Bool = t {
        return if a == 0 { 0 } else { 1 };
    }
    match quick_int(t, a) {
        Some(n) => i128::from(n),
        None => int_ops::convert(t, a),
    }
}

/// The number that is one of int, where the type is int.
#[inline(always)]
fn quick_int(t: IntType, a: i128) -> Option<i32>
    ensures { IfSome result (λ n. n ≡ convert t a) }
{
    let IntType::Int = t else {
        return None;
    };
    i32::try_from(a).ok()
}
