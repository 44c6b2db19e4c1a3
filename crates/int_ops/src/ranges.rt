//! The numbers of each type, and the conversion of a number to a type.

ghost use Rattle.std.specs.Prelude.{◌≡◌, ℤ};
ghost use Rattle.int_ops.specs.Ranges as spec;
ghost use Rattle.int_ops.specs.Ranges.{Range, IsNumber};
ghost use Rattle.int_ops.specs.Conversion as conversion;
ghost use Rattle.int_ops.specs.Conversion.{Conv};

use crate::num::Num;
use crate::types::IntType;

/// The table of types: each with its width and its sign, as the arm takes them, and `_Bool` apart.
macro_rules! by_type {
    ($of_type:expr, $of_bool:expr, $arm:ident) => {
        match $of_type {
            IntType::Bool => $of_bool,
            IntType::Char => $arm!(8, 1),
            IntType::SignedChar => $arm!(8, 1),
            IntType::UnsignedChar => $arm!(8, 0),
            IntType::Short => $arm!(16, 1),
            IntType::UnsignedShort => $arm!(16, 0),
            IntType::Int => $arm!(32, 1),
            IntType::UnsignedInt => $arm!(32, 0),
            IntType::Long => $arm!(64, 1),
            IntType::UnsignedLong => $arm!(64, 0),
        }
    };
}

/// The least number of a type.
pub fn least(t: IntType) -> i128
    ensures { result ≡ spec.least t }
{
    macro_rules! least_arm {
        ($bits:literal, $signed:literal) => {
            if $signed == 1 { -(1i128 << ($bits - 1)) } else { 0 }
        };
    }
    by_type!(t, 0, least_arm)
}

/// The greatest number of a type.
pub fn greatest(t: IntType) -> i128
    ensures { result ≡ spec.greatest t }
{
    macro_rules! greatest_arm {
        ($bits:literal, $signed:literal) => {
            (1i128 << ($bits - $signed)) - 1
        };
    }
    by_type!(t, 1, greatest_arm)
}

/// Whether the number is one of the type.
pub fn is_in_range(t: IntType, n: i128) -> bool
    ensures { result ≡ spec.is_in_range t n }
{
    least(t) <= n && n <= greatest(t)
}

/// How many bits a number of the type takes.
pub fn width(t: IntType) -> u32
    ensures { result ≡ spec.width t }
{
    macro_rules! width_arm {
        ($bits:literal, $signed:literal) => {
            $bits
        };
    }
    by_type!(t, 1, width_arm)
}

/// Whether the type is one of the signed ones.
pub fn is_signed(t: IntType) -> bool
    ensures { result ≡ spec.is_signed t }
{
    macro_rules! sign_arm {
        ($bits:literal, $signed:literal) => {
            $signed == 1
        };
    }
    by_type!(t, false, sign_arm)
}

/// The number that n becomes in the type.
pub fn convert(t: IntType, n: i128) -> i128
    ensures value { result ≡ conversion.convert t n }
    ensures is { Conv t n result }
    ensures only { (r : ℤ) → Conv t n r → r ≡ result }
    ensures range { Range t result }
    ensures number { IsNumber result }
{
    macro_rules! convert_arm {
        ($bits:literal, $signed:literal) => {
            Num::<$bits, $signed>::wrap(n).get()
        };
    }
    by_type!(t, if n == 0 { 0 } else { 1 }, convert_arm)
}
