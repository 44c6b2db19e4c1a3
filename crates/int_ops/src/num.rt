//! A number of a fixed width.

ghost use Rattle.std.specs.Prelude.{◌≡◌, ◌^◌, ◌<◌, ◌≤◌, ◌-◌, ◌==◌, pos, neg_ℤ, ℤ};
ghost use Rattle.int_ops.specs.Ranges.{least_at, greatest_at, RangeAt};
ghost use Rattle.int_ops.specs.Conversion.{ConvAt, conv_at};
ghost use Rattle.int_ops.specs.Widths.{IsWidth};

/// A number of BITS bits, signed where SIGNED is 1 and unsigned where it is 0. BITS is 8, 16, 32 or
/// 64.
#[derive(Clone, Copy)]
pub struct Num<const BITS: u32, const SIGNED: u32> {
    number: i128,
    ghost in_range: { RangeAt BITS (SIGNED == 1) number },
}

impl<const BITS: u32, const SIGNED: u32> Num<BITS, SIGNED> {
    /// The only number of the range that differs from n by a multiple of 2 to BITS.
    pub fn wrap(n: i128) -> Self
        requires bits { IsWidth BITS }
        requires signed { SIGNED < 2 }
        ensures number { result.number ≡ conv_at BITS (SIGNED == 1) n }
        ensures differs { ConvAt BITS (SIGNED == 1) n result.number }
        ensures only { (r : ℤ) → ConvAt BITS (SIGNED == 1) n r → r ≡ result.number }
    {
        Num {
            number: wrapped(n, BITS, SIGNED),
        }
    }

    /// The number, which is in the range.
    pub fn get(&self) -> i128
        ensures number { result ≡ self.now.number }
        ensures range { RangeAt BITS (SIGNED == 1) result }
    {
        self.number
    }
}

/// The number of so many bits, signed or not, that differs from n by a multiple of 2 to their
/// number.
fn wrapped(n: i128, bits: u32, signed: u32) -> i128
    requires bits { IsWidth bits }
    requires signed { signed < 2 }
    ensures { ConvAt bits (signed == 1) n result }
{
    let span = span_of(bits);
    let rest = n.rem_euclid(span);
    if signed == 0 {
        return rest;
    }
    if rest < span - rest {
        return rest;
    }
    rest - span
}

/// 2 to the width.
fn span_of(bits: u32) -> i128
    requires { IsWidth bits }
    ensures { result ≡ pos (2 ^ bits) }
{
    match bits {
        8 => 0x100,
        16 => 0x1_0000,
        32 => 0x1_0000_0000,
        _ => 0x1_0000_0000_0000_0000,
    }
}
