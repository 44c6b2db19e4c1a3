//! The type in which operands are taken.

ghost use Rattle.std.specs.Prelude.{◌≡◌, ◌⊎◌, IsTrue};
ghost use Rattle.int_ops.specs.Ranges.{is_signed};
ghost use Rattle.int_ops.specs.Common as spec;

use crate::types::IntType;

/// The type after the integer promotions: int for what ranks below it, and the type itself for the
/// others.
pub fn promoted(t: IntType) -> IntType
    ensures { result ≡ spec.promoted t }
{
    match t {
        IntType::UnsignedInt | IntType::Long | IntType::UnsignedLong => t,
        _ => IntType::Int,
    }
}

/// The type in which two operands are taken, after the usual arithmetic conversions: of the two
/// promoted types the one that stands later among the types.
pub fn common_type(a: IntType, b: IntType) -> IntType
    ensures value { result ≡ spec.common_type a b }

    // Laws of that rule: the operands may change places, the type is promoted and is that of one of
    // the operands, and a signed one holds the numbers of both.
    ensures turned { spec.common_type b a ≡ result }
    ensures promoted { spec.promoted result ≡ result }
    ensures one_of { (result ≡ spec.promoted a) ⊎ (result ≡ spec.promoted b) }
    ensures holds { IsTrue (is_signed result)
        → IsTrue (spec.holds result a) × IsTrue (spec.holds result b) }
{
    let left = promoted(a);
    let right = promoted(b);
    if (left as u8) < (right as u8) {
        right
    } else {
        left
    }
}
