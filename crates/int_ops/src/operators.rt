//! The operators on integers.

ghost use Rattle.std.specs.Prelude.{◌≡◌, ◌≤◌, ◌<◌, MatchOption};
ghost use Rattle.int_ops.specs.Codes.{operator_code, sign_code, trap_code};

/// An operator with two operands. The sixteen are coded 0 to 15, in this order.
#[derive(Clone, Copy, Debug, PartialEq, Eq)]
pub enum BinOp {
    Mul,
    Div,
    Rem,
    Add,
    Sub,
    /// A shift to the left.
    Shl,
    /// A shift to the right.
    Shr,
    Less,
    Greater,
    LessEqual,
    GreaterEqual,
    Equal,
    NotEqual,
    /// Bit by bit, as are the next two.
    And,
    Xor,
    Or,
}

/// An operator with one operand, coded 0 and 1.
#[derive(Clone, Copy, Debug, PartialEq, Eq)]
pub enum UnOp {
    Minus,
    /// Every bit turned over.
    Complement,
}

/// Why an operator gives no number, coded 0 to 2.
#[derive(Clone, Copy, Debug, PartialEq, Eq)]
pub enum ArithTrap {
    /// The result is outside its signed type.
    Overflow,
    /// The right operand of a quotient or a remainder is 0.
    DivideByZero,
    /// A shift count is negative, or at least the width of the type.
    ShiftRange,
}

impl BinOp {
    /// The code of the operator, from 0 to 15.
    pub fn code(self) -> u8
        ensures code { result ≡ operator_code self }
        ensures few { result < 16 }
    {
        self as u8
    }

    /// The operator with this code, where there is one.
    pub fn from_code(code: u8) -> Option<BinOp>
        ensures { MatchOption result (16 ≤ code) (λ op. operator_code op ≡ code) }
    {
        match code {
            0 => Some(BinOp::Mul),
            1 => Some(BinOp::Div),
            2 => Some(BinOp::Rem),
            3 => Some(BinOp::Add),
            4 => Some(BinOp::Sub),
            5 => Some(BinOp::Shl),
            6 => Some(BinOp::Shr),
            7 => Some(BinOp::Less),
            8 => Some(BinOp::Greater),
            9 => Some(BinOp::LessEqual),
            10 => Some(BinOp::GreaterEqual),
            11 => Some(BinOp::Equal),
            12 => Some(BinOp::NotEqual),
            13 => Some(BinOp::And),
            14 => Some(BinOp::Xor),
            15 => Some(BinOp::Or),
            _ => None,
        }
    }
}

impl UnOp {
    /// The code of the operator, 0 or 1.
    pub fn code(self) -> u8
        ensures { result ≡ sign_code self }
    {
        self as u8
    }
}

impl ArithTrap {
    /// The code of the trap, from 0 to 2.
    pub fn code(self) -> u8
        ensures { result ≡ trap_code self }
    {
        self as u8
    }
}
