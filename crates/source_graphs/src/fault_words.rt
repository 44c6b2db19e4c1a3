//! The faults of a source in words, and their numbers.

ghost use Rattle.std.specs.Prelude.{◌≡◌};
ghost use Rattle.source_graphs.specs.FaultWords as spec;

use crate::graphs::SourceFault;
use c_grammar::ParseFault;
use c_lower::LowerFault;
use c_tokens::{LeftWord, LexFault};
use fake_arcs::SizeFault;

impl SourceFault {
    /// The fault in words, as messages have it.
    pub fn words(self) -> &'static str
        ensures { result.now ≡ spec.words self }
    {
        match self {
            SourceFault::Lex(fault) => lex_words(fault),
            SourceFault::Parse(fault) => parse_words(fault),
            SourceFault::Types(fault) => fault.words(),
            SourceFault::Lower(fault) => lower_words(fault),
            SourceFault::Size(fault) => size_words(fault),
        }
    }

    /// The words between those and its number.
    pub fn link(self) -> &'static str
        ensures { result.now ≡ spec.link self }
    {
        match self {
            SourceFault::Lex(_) | SourceFault::Parse(_) | SourceFault::Types(_) => " at byte ",
            SourceFault::Lower(_) | SourceFault::Size(_) => " ",
        }
    }

    /// Its place in the text, or how large what is too large is.
    pub fn number(self) -> u64
        ensures { result ≡ spec.number self }
    {
        match self {
            SourceFault::Lex(fault) => u64::from(lex_place(fault)),
            SourceFault::Parse(fault) => u64::from(parse_place(fault)),
            SourceFault::Types(fault) => u64::from(fault.place()),
            SourceFault::Lower(fault) => lower_count(fault),
            SourceFault::Size(fault) => size_count(fault),
        }
    }
}

fn lex_words(fault: LexFault) -> &'static str
    ensures { result.now ≡ spec.lex_words fault }
{
    match fault {
        LexFault::BadByte(_) => "bad byte",
        LexFault::LeftOut(word, _) => left_words(word),
        LexFault::BadNumber(_) => "bad number",
        LexFault::BigLiteral(_) => "big literal",
        LexFault::OpenComment(_) => "open comment",
    }
}

fn left_words(word: LeftWord) -> &'static str
    ensures { result.now ≡ spec.left_words word }
{
    match word {
        LeftWord::Auto => "left out auto",
        LeftWord::Const => "left out const",
        LeftWord::Double => "left out double",
        LeftWord::Enum => "left out enum",
        LeftWord::Extern => "left out extern",
        LeftWord::Float => "left out float",
        LeftWord::Goto => "left out goto",
        LeftWord::Inline => "left out inline",
        LeftWord::Register => "left out register",
        LeftWord::Restrict => "left out restrict",
        LeftWord::SizeOf => "left out sizeof",
        LeftWord::Static => "left out static",
        LeftWord::Struct => "left out struct",
        LeftWord::TypeDef => "left out typedef",
        LeftWord::Union => "left out union",
        LeftWord::Volatile => "left out volatile",
        LeftWord::AlignAs => "left out _Alignas",
        LeftWord::AlignOf => "left out _Alignof",
        LeftWord::Atomic => "left out _Atomic",
        LeftWord::Complex => "left out _Complex",
        LeftWord::Generic => "left out _Generic",
        LeftWord::Imaginary => "left out _Imaginary",
        LeftWord::NoReturn => "left out _Noreturn",
        LeftWord::StaticAssert => "left out _Static_assert",
        LeftWord::ThreadLocal => "left out _Thread_local",
        LeftWord::Hash => "left out #",
        LeftWord::Quote => "left out \"",
    }
}

fn lex_place(fault: LexFault) -> u32
    ensures { result ≡ spec.lex_place fault }
{
    match fault {
        LexFault::BadByte(place)
        | LexFault::LeftOut(_, place)
        | LexFault::BadNumber(place)
        | LexFault::BigLiteral(place)
        | LexFault::OpenComment(place) => place,
    }
}

fn parse_words(fault: ParseFault) -> &'static str
    ensures { result.now ≡ spec.parse_words fault }
{
    match fault {
        ParseFault::Syntax(_) => "syntax",
        ParseFault::TooDeep(_) => "too deep",
    }
}

fn parse_place(fault: ParseFault) -> u32
    ensures { result ≡ spec.parse_place fault }
{
    match fault {
        ParseFault::Syntax(place) | ParseFault::TooDeep(place) => place,
    }
}

fn lower_words(fault: LowerFault) -> &'static str
    ensures { result.now ≡ spec.lower_words fault }
{
    match fault {
        LowerFault::FrameTooLarge(_, _) => "frame too large",
        LowerFault::GlobalsTooLarge(_) => "globals too large",
    }
}

fn lower_count(fault: LowerFault) -> u64
    ensures { result ≡ spec.lower_count fault }
{
    match fault {
        LowerFault::FrameTooLarge(_, count) | LowerFault::GlobalsTooLarge(count) => count,
    }
}

fn size_words(fault: SizeFault) -> &'static str
    ensures { result.now ≡ spec.size_words fault }
{
    match fault {
        SizeFault::TooManyBlocks(_, _) => "too many blocks",
        SizeFault::TooManyArcs(_, _) => "too many arcs",
        SizeFault::UnitTooLarge(_) => "unit too large",
    }
}

fn size_count(fault: SizeFault) -> u64
    ensures { result ≡ spec.size_count fault }
{
    match fault {
        SizeFault::TooManyBlocks(_, count)
        | SizeFault::TooManyArcs(_, count)
        | SizeFault::UnitTooLarge(count) => count,
    }
}
