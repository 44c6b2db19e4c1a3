//! The words and marks of the language, and those that it lacks.

ghost use Rattle.std.specs.Prelude.{
  ◌≡◌,
  ◌<◌,
  ◌≤◌,
  ℕ,
  List,
  length,
  take,
  map,
  IfSome,
  MatchOption,
  nat_eq,
};
ghost use Rattle.std.specs.List.{starts_with};
ghost use Rattle.c_tokens.specs.Marks.{BeginsMark, IsLongestMark, first_mark};
ghost use Rattle.c_tokens.specs.Words as spec;

use crate::token::{Keyword, LeftWord, Punct, TokenKind};

const KEYWORDS: [(&[u8], Keyword); 19] = [
    (b"_Bool", Keyword::Bool),
    (b"break", Keyword::Break),
    (b"case", Keyword::Case),
    (b"char", Keyword::Char),
    (b"continue", Keyword::Continue),
    (b"default", Keyword::Default),
    (b"do", Keyword::Do),
    (b"else", Keyword::Else),
    (b"for", Keyword::For),
    (b"if", Keyword::If),
    (b"int", Keyword::Int),
    (b"long", Keyword::Long),
    (b"return", Keyword::Return),
    (b"short", Keyword::Short),
    (b"signed", Keyword::Signed),
    (b"switch", Keyword::Switch),
    (b"unsigned", Keyword::Unsigned),
    (b"void", Keyword::Void),
    (b"while", Keyword::While),
];

const LEFT_WORDS: [(&[u8], LeftWord); 25] = [
    (b"auto", LeftWord::Auto),
    (b"const", LeftWord::Const),
    (b"double", LeftWord::Double),
    (b"enum", LeftWord::Enum),
    (b"extern", LeftWord::Extern),
    (b"float", LeftWord::Float),
    (b"goto", LeftWord::Goto),
    (b"inline", LeftWord::Inline),
    (b"register", LeftWord::Register),
    (b"restrict", LeftWord::Restrict),
    (b"sizeof", LeftWord::SizeOf),
    (b"static", LeftWord::Static),
    (b"struct", LeftWord::Struct),
    (b"typedef", LeftWord::TypeDef),
    (b"union", LeftWord::Union),
    (b"volatile", LeftWord::Volatile),
    (b"_Alignas", LeftWord::AlignAs),
    (b"_Alignof", LeftWord::AlignOf),
    (b"_Atomic", LeftWord::Atomic),
    (b"_Complex", LeftWord::Complex),
    (b"_Generic", LeftWord::Generic),
    (b"_Imaginary", LeftWord::Imaginary),
    (b"_Noreturn", LeftWord::NoReturn),
    (b"_Static_assert", LeftWord::StaticAssert),
    (b"_Thread_local", LeftWord::ThreadLocal),
];

/// The longest marks come first.
const MARKS: [(&[u8], Punct); 43] = [
    (b"<<=", Punct::ShiftLeftAssign),
    (b">>=", Punct::ShiftRightAssign),
    (b"++", Punct::PlusPlus),
    (b"--", Punct::MinusMinus),
    (b"<<", Punct::ShiftLeft),
    (b">>", Punct::ShiftRight),
    (b"<=", Punct::LessEqual),
    (b">=", Punct::GreaterEqual),
    (b"==", Punct::EqualEqual),
    (b"!=", Punct::NotEqual),
    (b"&&", Punct::AndAnd),
    (b"||", Punct::OrOr),
    (b"+=", Punct::PlusAssign),
    (b"-=", Punct::MinusAssign),
    (b"*=", Punct::StarAssign),
    (b"/=", Punct::SlashAssign),
    (b"%=", Punct::PercentAssign),
    (b"&=", Punct::AndAssign),
    (b"^=", Punct::CaretAssign),
    (b"|=", Punct::OrAssign),
    (b"(", Punct::OpenParen),
    (b")", Punct::CloseParen),
    (b"[", Punct::OpenBracket),
    (b"]", Punct::CloseBracket),
    (b"{", Punct::OpenBrace),
    (b"}", Punct::CloseBrace),
    (b";", Punct::Semicolon),
    (b",", Punct::Comma),
    (b":", Punct::Colon),
    (b"?", Punct::Question),
    (b"~", Punct::Tilde),
    (b"!", Punct::Not),
    (b"+", Punct::Plus),
    (b"-", Punct::Minus),
    (b"*", Punct::Star),
    (b"/", Punct::Slash),
    (b"%", Punct::Percent),
    (b"<", Punct::Less),
    (b">", Punct::Greater),
    (b"=", Punct::Assign),
    (b"&", Punct::And),
    (b"|", Punct::Or),
    (b"^", Punct::Caret),
];

/// What a table has for a word.
pub fn look_up<T: Copy>(table: &[(&[u8], T)], word: &[u8]) -> Option<T>
    ensures { result ≡ spec.look_up (map (λ e. (e.0.now, e.1)) table.entry.now) word.now }
{
    for (spelling, meaning) in table {
        if word == *spelling {
            return Some(*meaning);
        }
    }
    None
}

/// The keyword that a word is.
fn keyword(word: &[u8]) -> Option<Keyword>
    ensures { result ≡ spec.look_up spec.keywords word.now }
{
    look_up(&KEYWORDS, word)
}

/// The keyword that a word is, of those that the language lacks.
fn left_word(word: &[u8]) -> Option<LeftWord>
    ensures { result ≡ spec.look_up spec.left_words word.now }
{
    look_up(&LEFT_WORDS, word)
}

/// What a word is: a token, or a word that the language lacks.
pub fn word_of(word: &[u8]) -> Result<TokenKind, LeftWord>
    ensures { result ≡ spec.word_of word.now }
{
    if let Some(keyword) = keyword(word) {
        return Ok(TokenKind::Key(keyword));
    }
    if word == b"EOF".as_slice() {
        return Ok(TokenKind::EofName);
    }
    match left_word(word) {
        Some(left) => Err(left),
        None => Ok(TokenKind::Name),
    }
}

/// The longest mark that the text begins with, and its length.
pub fn longest_mark(text: &[u8]) -> Option<(usize, Punct)>
    ensures longest { MatchOption result
        ((spelling : List ℕ) (m : Punct) → BeginsMark text.now spelling m → ⊥)
        (λ found. IsLongestMark text.now (take found.0 text.now) found.1) }
    ensures within { IfSome result (λ found. (0 < found.0) × (found.0 ≤ length text.now)) }
{
    first_mark(&MARKS, text)
}

/// Whether the text begins with a spelling. Most spellings differ from it in the first byte.
#[inline]
fn begins(text: &[u8], spelling: &[u8]) -> bool
    ensures { result ≡ starts_with nat_eq text.now spelling.now }
{
    if let Some((first, _)) = text.split_first()
        && let Some((other, _)) = spelling.split_first()
        && first != other
    {
        return false;
    }
    text.starts_with(spelling)
}

/// The first mark of a table that the text begins with, and its length.
fn first_mark(table: &[(&[u8], Punct)], text: &[u8]) -> Option<(usize, Punct)>
    ensures value { result ≡ first_mark (map (λ m. (m.0.now, m.1)) table.entry.now) text.now }
    ensures within { IfSome result (λ found. found.0 ≤ length text.now) }
{
    for (spelling, mark) in table {
        if begins(text, spelling) {
            return Some((spelling.len(), *mark));
        }
    }
    None
}
