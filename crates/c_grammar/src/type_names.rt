//! The type that type words name.

ghost use Rattle.std.specs.Prelude.{◌≡◌, ◌==◌, map};
ghost use Rattle.c_grammar.specs.Words as spec;

use crate::type_words::{is_type_word, key_of, word_number};
use c_tokens::{Keyword, Token};
use c_tree::Base;
use int_ops::IntType;

/// The words that name each type, in one order.
const TYPE_LISTS: [(&[Keyword], Base); 22] = [
    (&[Keyword::Void], Base::Void),
    (&[Keyword::Bool], Base::Int(IntType::Bool)),
    (&[Keyword::Char], Base::Int(IntType::Char)),
    (
        &[Keyword::Signed, Keyword::Char],
        Base::Int(IntType::SignedChar),
    ),
    (
        &[Keyword::Unsigned, Keyword::Char],
        Base::Int(IntType::UnsignedChar),
    ),
    (&[Keyword::Short], Base::Int(IntType::Short)),
    (
        &[Keyword::Signed, Keyword::Short],
        Base::Int(IntType::Short),
    ),
    (&[Keyword::Short, Keyword::Int], Base::Int(IntType::Short)),
    (
        &[Keyword::Signed, Keyword::Short, Keyword::Int],
        Base::Int(IntType::Short),
    ),
    (
        &[Keyword::Unsigned, Keyword::Short],
        Base::Int(IntType::UnsignedShort),
    ),
    (
        &[Keyword::Unsigned, Keyword::Short, Keyword::Int],
        Base::Int(IntType::UnsignedShort),
    ),
    (&[Keyword::Int], Base::Int(IntType::Int)),
    (&[Keyword::Signed], Base::Int(IntType::Int)),
    (&[Keyword::Signed, Keyword::Int], Base::Int(IntType::Int)),
    (&[Keyword::Unsigned], Base::Int(IntType::UnsignedInt)),
    (
        &[Keyword::Unsigned, Keyword::Int],
        Base::Int(IntType::UnsignedInt),
    ),
    (&[Keyword::Long], Base::Int(IntType::Long)),
    (&[Keyword::Signed, Keyword::Long], Base::Int(IntType::Long)),
    (&[Keyword::Long, Keyword::Int], Base::Int(IntType::Long)),
    (
        &[Keyword::Signed, Keyword::Long, Keyword::Int],
        Base::Int(IntType::Long),
    ),
    (
        &[Keyword::Unsigned, Keyword::Long],
        Base::Int(IntType::UnsignedLong),
    ),
    (
        &[Keyword::Unsigned, Keyword::Long, Keyword::Int],
        Base::Int(IntType::UnsignedLong),
    ),
];

/// The type that the type words name with which the tokens begin.
pub fn base_at(tokens: &[Token]) -> Option<Base>
    ensures { result ≡ spec.base_at tokens.now }
{
    named_by(&TYPE_LISTS, tokens)
}

/// What the first list names that has the words with which the tokens begin.
fn named_by(lists: &[(&[Keyword], Base)], tokens: &[Token]) -> Option<Base>
    ensures { result ≡ spec.named_by (map (λ e. (map spec.word_number e.0.now, e.1))
        lists.entry.now)
        (spec.type_words tokens.now) }
{
    for (words, base) in lists {
        if same_words(tokens, words) {
            return Some(*base);
        }
    }
    None
}

/// Whether the tokens begin with these type words, in any order.
fn same_words(tokens: &[Token], words: &[Keyword]) -> bool
    ensures { result ≡ spec.same_words (spec.type_words tokens.now)
        (map spec.word_number words.now) }
{
    same_times(Keyword::Void, tokens, words)
        && same_times(Keyword::Bool, tokens, words)
        && same_times(Keyword::Char, tokens, words)
        && same_times(Keyword::Short, tokens, words)
        && same_times(Keyword::Int, tokens, words)
        && same_times(Keyword::Long, tokens, words)
        && same_times(Keyword::Signed, tokens, words)
        && same_times(Keyword::Unsigned, tokens, words)
}

/// Whether a word stands as often in the words as among the type words with which the tokens begin.
fn same_times(word: Keyword, tokens: &[Token], words: &[Keyword]) -> bool
    ensures { result ≡ (spec.times (spec.word_number word) (spec.type_words tokens.now)
        == spec.times (spec.word_number word) (map spec.word_number words.now)) }
{
    times_at(word, tokens) == times(word, words)
}

/// How often a word stands among the type words with which the tokens begin.
fn times_at(word: Keyword, tokens: &[Token]) -> usize
    ensures { result ≡ spec.times (spec.word_number word) (spec.type_words tokens.now) }
{
    let number = word_number(word);
    let mut count = 0;
    for token in tokens {
        let Some(keyword) = key_of(*token) else {
            return count;
        };
        if !is_type_word(keyword) {
            return count;
        }
        if word_number(keyword) == number {
            count += 1;
        }
    }
    count
}

/// How often a word stands in a list.
fn times(word: Keyword, words: &[Keyword]) -> usize
    ensures { result ≡ spec.times (spec.word_number word) (map spec.word_number words.now) }
{
    let number = word_number(word);
    let mut count = 0;
    for other in words {
        if word_number(*other) == number {
            count += 1;
        }
    }
    count
}
