//! The words that name a type.

ghost use Rattle.std.specs.Prelude.{◌≡◌, Some, ◌≤◌, length};
ghost use Rattle.c_grammar.specs.Words as spec;

use c_tokens::{Keyword, Token, TokenKind};

/// The number of a type word, from 1; every other keyword has 0.
pub fn word_number(keyword: Keyword) -> u8
    ensures { result ≡ spec.word_number keyword }
{
    match keyword {
        Keyword::Void => 1,
        Keyword::Bool => 2,
        Keyword::Char => 3,
        Keyword::Short => 4,
        Keyword::Int => 5,
        Keyword::Long => 6,
        Keyword::Signed => 7,
        Keyword::Unsigned => 8,
        _ => 0,
    }
}

/// Whether the keyword is a type word.
pub fn is_type_word(keyword: Keyword) -> bool
    ensures { result ≡ spec.is_type_word (Some keyword) }
{
    word_number(keyword) != 0
}

/// The keyword that a token is.
pub fn key_of(token: Token) -> Option<Keyword>
    ensures { result ≡ spec.key_of (Some token.kind) }
{
    match token.kind {
        TokenKind::Key(keyword) => Some(keyword),
        _ => None,
    }
}

/// Whether a token is a type word.
fn is_word(token: Token) -> bool
    ensures { result ≡ spec.is_type_word (spec.key_of (Some token.kind)) }
{
    match key_of(token) {
        Some(keyword) => is_type_word(keyword),
        None => false,
    }
}

/// What stands behind the type words that the tokens begin with.
pub fn behind_words<'a>(tokens: &'a [Token]) -> &'a [Token]
    ensures value { result.now ≡ spec.behind_words tokens.now }
    ensures shorter { length result.now ≤ length tokens.now }
{
    let mut rest = tokens;
    while let Some((first, others)) = rest.split_first() {
        if !is_word(*first) {
            return rest;
        }
        rest = others;
    }
    rest
}
