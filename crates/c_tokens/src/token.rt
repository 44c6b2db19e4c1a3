//! Tokens, and why a text has none.

use int_ops::IntType;

/// A keyword.
#[derive(Clone, Copy, Debug, PartialEq, Eq)]
pub enum Keyword {
    Bool,
    Break,
    Case,
    Char,
    Continue,
    Default,
    Do,
    Else,
    For,
    If,
    Int,
    Long,
    Return,
    Short,
    Signed,
    Switch,
    Unsigned,
    Void,
    While,
}

/// A mark.
#[derive(Clone, Copy, Debug, PartialEq, Eq)]
pub enum Punct {
    OpenParen,
    CloseParen,
    OpenBracket,
    CloseBracket,
    OpenBrace,
    CloseBrace,
    Semicolon,
    Comma,
    Colon,
    Question,
    Tilde,
    Not,
    Plus,
    Minus,
    Star,
    Slash,
    Percent,
    Less,
    Greater,
    Assign,
    And,
    Or,
    Caret,
    PlusPlus,
    MinusMinus,
    ShiftLeft,
    ShiftRight,
    LessEqual,
    GreaterEqual,
    EqualEqual,
    NotEqual,
    AndAnd,
    OrOr,
    PlusAssign,
    MinusAssign,
    StarAssign,
    SlashAssign,
    PercentAssign,
    AndAssign,
    CaretAssign,
    OrAssign,
    ShiftLeftAssign,
    ShiftRightAssign,
}

/// A keyword of C that this language lacks, or one of the marks `#` and `"`.
#[derive(Clone, Copy, Debug, PartialEq, Eq)]
pub enum LeftWord {
    Auto,
    Const,
    Double,
    Enum,
    Extern,
    Float,
    Goto,
    Inline,
    Register,
    Restrict,
    SizeOf,
    Static,
    Struct,
    TypeDef,
    Union,
    Volatile,
    AlignAs,
    AlignOf,
    Atomic,
    Complex,
    Generic,
    Imaginary,
    NoReturn,
    StaticAssert,
    ThreadLocal,
    /// `#`, other than in an include line.
    Hash,
    /// `"`
    Quote,
}

/// What a token is.
#[derive(Clone, Copy, Debug, PartialEq, Eq)]
pub enum TokenKind {
    Name,
    /// A number or a character, with its type.
    Number(i128, IntType),
    /// The name `EOF`.
    EofName,
    Key(Keyword),
    Mark(Punct),
}

/// A token: the bytes of the text from `start` up to `end`, and the line on which they begin.
#[derive(Clone, Copy, Debug, PartialEq, Eq)]
pub struct Token {
    pub kind: TokenKind,
    pub start: u32,
    pub end: u32,
    pub line: u32,
}

/// Why a text has no tokens, with the place where it goes wrong.
#[derive(Clone, Copy, Debug, PartialEq, Eq)]
pub enum LexFault {
    /// A byte that begins nothing, or one that does not fit into a character.
    BadByte(u32),
    /// A word or a mark that this language lacks.
    LeftOut(LeftWord, u32),
    /// A number out of form.
    BadNumber(u32),
    /// A number above every type that it may have.
    BigLiteral(u32),
    /// A comment without an end.
    OpenComment(u32),
}
