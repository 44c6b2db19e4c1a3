//! What readers give, and the readers of single tokens and of the words of a type.

ghost use Rattle.std.specs.Prelude.{◌≡◌};
ghost use Rattle.c_tokens.specs.declared.token.Keyword.TheVariants as key;
ghost use Rattle.c_tokens.specs.declared.token.TokenKind.TheVariants as kind;
ghost use Rattle.c_grammar.specs.Rules.{Rule};
ghost use Rattle.c_grammar.specs.Derivations.{Front};
ghost use Rattle.c_grammar.specs.Reads.{Takes, Closes};

use crate::fault::ParseFault;
use crate::forms::name_at;
use crate::lookahead::{key_at, next_is, place_at};
use crate::type_names::base_at;
use crate::type_words::behind_words;
use c_tokens::{Keyword, Punct, Token};
use c_tree::Base;
use cov_base::Refusal;

/// What was found in front of the tokens, how many levels it has, and the tokens behind it.
#[derive(Drop)]
pub struct Found<'a, T> {
    pub tree: T,
    pub levels: u32,
    pub rest: &'a [Token],
}

/// What a reader gives: what it found, or why it found nothing.
pub type Read<'a, T> = Result<Found<'a, T>, Refusal<ParseFault>>;

/// The next token.
#[tactic(auto, using(crate::proofs::Laws::token_first, crate::proofs::Leaves::any_lacking))]
pub fn next_token<'a>(text: &[u8], tokens: &'a [Token]) -> Read<'a, Token>
    ensures { Takes (Front text.now Rule.any tokens.now) result }
{
    let Some((first, rest)) = tokens.split_first() else {
        return Err(Refusal::Refused(ParseFault::Syntax(place_at(text, tokens))));
    };
    Ok(Found {
        tree: *first,
        levels: 0,
        rest,
    })
}

/// The next token, if it is this mark.
#[tactic(auto, using(crate::proofs::Leaves::marked, crate::proofs::Leaves::of_kind, crate::proofs::Leaves::same_lacking, crate::proofs::Leaves::mark_lacking))]
pub fn expect<'a>(text: &[u8], tokens: &'a [Token], mark: Punct) -> Read<'a, Token>
    ensures { Takes (Front text.now (Rule.token (kind.Mark mark)) tokens.now) result }
{
    if next_is(tokens, mark) {
        Ok(next_token(text, tokens)?)
    } else {
        Err(Refusal::Refused(ParseFault::Syntax(place_at(text, tokens))))
    }
}

/// What was found, and this mark behind it.
pub fn close<'a, T: Drop>(text: &[u8], inner: Found<'a, T>, mark: Punct) -> Read<'a, T>
    ensures { Closes text.now mark inner.entry result }
{
    let close = expect(text, inner.rest, mark)?;
    Ok(Found {
        tree: inner.tree,
        levels: inner.levels,
        rest: close.rest,
    })
}

/// The next token, if it is a name.
#[tactic(auto, using(crate::proofs::Leaves::named, crate::proofs::Leaves::of_kind, crate::proofs::Leaves::same_lacking, crate::proofs::Leaves::name_lacking))]
pub fn expect_name<'a>(text: &[u8], tokens: &'a [Token]) -> Read<'a, Token>
    ensures { Takes (Front text.now (Rule.token kind.Name) tokens.now) result }
{
    if name_at(tokens) {
        Ok(next_token(text, tokens)?)
    } else {
        Err(Refusal::Refused(ParseFault::Syntax(place_at(text, tokens))))
    }
}

/// The next token, if it is `while`.
#[tactic(auto, using(crate::proofs::Leaves::worded, crate::proofs::Leaves::of_kind, crate::proofs::Leaves::same_lacking, crate::proofs::Leaves::word_lacking))]
pub fn expect_while<'a>(text: &[u8], tokens: &'a [Token]) -> Read<'a, Token>
    ensures { Takes (Front text.now (Rule.token (kind.Key key.While)) tokens.now) result }
{
    match key_at(tokens) {
        Some(Keyword::While) => Ok(next_token(text, tokens)?),
        _ => Err(Refusal::Refused(ParseFault::Syntax(place_at(text, tokens)))),
    }
}

/// The type that the words name with which the tokens begin.
#[tactic(auto, using(crate::proofs::Leaves::words_found, crate::proofs::Leaves::words_lacking))]
pub fn type_name<'a>(text: &[u8], tokens: &'a [Token]) -> Read<'a, Base>
    ensures { Takes (Front text.now Rule.type_name tokens.now) result }
{
    let Some(base) = base_at(tokens) else {
        return Err(Refusal::Refused(ParseFault::Syntax(place_at(text, tokens))));
    };
    Ok(Found {
        tree: base,
        levels: 0,
        rest: behind_words(tokens),
    })
}
