//! Exact results: operators on whole numbers, each within the width of the code's numbers.

ghost use Rattle.std.specs.Prelude.{◌≡◌, ◌≢◌, ◌≤◌, ◌<◌, ◌^◌, ℤ, pos, neg_ℤ, ◌+ℤ◌, ◌-ℤ◌, ◌*ℤ◌, ◌≤ℤ◌, ◌<ℤ◌, int_div, int_rem, unsigned_abs};
ghost use Rattle.std.specs.Int.{int_rem_euclid, int_div_euclid};
ghost use Rattle.int_ops.specs.Ranges.{IsNumber};
ghost use Rattle.int_ops.specs.Apply.{both, one_alone, any, turned, power};

pub fn sum(a: i128, b: i128) -> i128
    requires left { IsNumber a }
    requires right { IsNumber b }
    ensures { result ≡ a +ℤ b }
{
    a + b
}

pub fn difference(a: i128, b: i128) -> i128
    requires left { IsNumber a }
    requires right { IsNumber b }
    ensures { result ≡ a -ℤ b }
{
    a - b
}

/// The product of two numbers of a signed type.
pub fn product(a: i128, b: i128) -> i128
    requires left { unsigned_abs a ≤ 2 ^ 63 }
    requires right { unsigned_abs b ≤ 2 ^ 63 }
    ensures { result ≡ a *ℤ b }
{
    a * b
}

/// What the product of two numbers of an unsigned type leaves in 64 bits.
pub fn low_product(a: i128, b: i128) -> i128
    requires least_left { pos 0 ≤ℤ a }
    requires left { IsNumber a }
    requires least_right { pos 0 ≤ℤ b }
    requires right { IsNumber b }
    ensures { result ≡ int_rem_euclid (a *ℤ b) (pos (2 ^ 64)) }
{
    i128::from((a as u64).wrapping_mul(b as u64))
}

pub fn quotient(a: i128, b: i128) -> i128
    requires left { IsNumber a }
    requires right { IsNumber b }
    requires some { b ≢ pos 0 }
    ensures { result ≡ int_div a b }
{
    a / b
}

pub fn remainder(a: i128, b: i128) -> i128
    requires left { IsNumber a }
    requires right { IsNumber b }
    requires some { b ≢ pos 0 }
    ensures { result ≡ int_rem a b }
{
    a % b
}

/// A number of a signed type that is not negative, times 2 to the count.
pub fn shifted_left(a: i128, count: u32) -> i128
    requires least { pos 0 ≤ℤ a }
    requires most { a <ℤ pos (2 ^ 63) }
    requires count { count < 64 }
    ensures { result ≡ a *ℤ power (pos count) }
{
    a << count
}

/// What a number of an unsigned type times 2 to the count leaves in 64 bits.
pub fn low_shifted_left(a: i128, count: u32) -> i128
    requires least { pos 0 ≤ℤ a }
    requires number { IsNumber a }
    requires count { count < 64 }
    ensures { result ≡ int_rem_euclid (a *ℤ power (pos count)) (pos (2 ^ 64)) }
{
    i128::from((a as u64) << count)
}

/// A number divided by 2 to the count, rounded down.
pub fn shifted_right(a: i128, count: u32) -> i128
    requires number { IsNumber a }
    requires count { count < 64 }
    ensures { result ≡ int_div_euclid a (power (pos count)) }
{
    a >> count
}

#[tactic(auto, using(crate::proofs::BitLaws::both_is))]
pub fn bits_of_both(a: i128, b: i128) -> i128
    requires left { IsNumber a }
    requires right { IsNumber b }
    ensures { result ≡ both a b }
{
    a & b
}

#[tactic(auto, using(crate::proofs::BitLaws::one_is))]
pub fn bits_of_one(a: i128, b: i128) -> i128
    requires left { IsNumber a }
    requires right { IsNumber b }
    ensures { result ≡ one_alone a b }
{
    a ^ b
}

#[tactic(auto, using(crate::proofs::BitLaws::any_is))]
pub fn bits_of_any(a: i128, b: i128) -> i128
    requires left { IsNumber a }
    requires right { IsNumber b }
    ensures { result ≡ any a b }
{
    a | b
}

pub fn negated(a: i128) -> i128
    requires { IsNumber a }
    ensures { result ≡ neg_ℤ a }
{
    -a
}

pub fn complemented(a: i128) -> i128
    requires { IsNumber a }
    ensures { result ≡ turned a }
{
    !a
}
