//! The integer types of C.

ghost use Rattle.std.specs.Prelude.{◌≡◌, ◌≤◌, ◌<◌, MatchOption};
ghost use Rattle.int_ops.specs.Codes.{type_code};

/// An integer type. The ten types are coded 0 to 9, in this order.
#[derive(Clone, Copy, Debug, PartialEq, Eq)]
pub enum IntType {
    /// `_Bool`, of the numbers 0 and 1.
    Bool,
    /// `char`, of 8 bits and signed.
    Char,
    /// `signed char`, of 8 bits.
    SignedChar,
    /// `unsigned char`, of 8 bits.
    UnsignedChar,
    /// `short`, of 16 bits.
    Short,
    /// `unsigned short`, of 16 bits.
    UnsignedShort,
    /// `int`, of 32 bits.
    Int,
    /// `unsigned int`, of 32 bits.
    UnsignedInt,
    /// `long`, of 64 bits.
    Long,
    /// `unsigned long`, of 64 bits.
    UnsignedLong,
}

impl IntType {
    /// The code of the type, from 0 to 9.
    pub fn code(self) -> u8
        ensures code { result ≡ type_code self }
        ensures few { result < 10 }
    {
        self as u8
    }

    /// The type with this code, where there is one.
    pub fn from_code(code: u8) -> Option<IntType>
        ensures { MatchOption result (10 ≤ code) (λ t. type_code t ≡ code) }
    {
        match code {
            0 => Some(IntType::Bool),
            1 => Some(IntType::Char),
            2 => Some(IntType::SignedChar),
            3 => Some(IntType::UnsignedChar),
            4 => Some(IntType::Short),
            5 => Some(IntType::UnsignedShort),
            6 => Some(IntType::Int),
            7 => Some(IntType::UnsignedInt),
            8 => Some(IntType::Long),
            9 => Some(IntType::UnsignedLong),
            _ => None,
        }
    }
}
