//! What the next tokens begin in declarations, statements and sources.

ghost use Rattle.std.specs.Prelude.{◌≡◌, ◌≤◌, length, map};
ghost use Rattle.c_tree.specs.TreeView.{param_view};
ghost use Rattle.c_grammar.specs.Forms as spec;
ghost use Rattle.c_grammar.specs.Words as words;
ghost use Rattle.c_grammar.specs.Lists as lists;

use crate::begins::{Following, ItemForm, ParamsForm, StmtForm};
use crate::lookahead::{behind, key_at, next_is, next_kind};
use crate::type_words::behind_words;
use c_tokens::{Keyword, Punct, Token, TokenKind};
use c_tree::Param;

/// Whether a comma is next, and no `}` behind it: a further initialiser follows.
pub fn further_at(tokens: &[Token]) -> bool
    ensures { result ≡ spec.further_at tokens.now }
{
    next_is(tokens, Punct::Comma) && !next_is(behind(tokens), Punct::CloseBrace)
}

/// The statement that the next tokens begin.
pub fn form_at(tokens: &[Token]) -> StmtForm
    ensures { result ≡ spec.form_at tokens.now }
{
    match next_kind(tokens) {
        Some(TokenKind::Mark(Punct::OpenBrace)) => StmtForm::Block,
        Some(TokenKind::Key(Keyword::If)) => StmtForm::If,
        Some(TokenKind::Key(Keyword::While)) => StmtForm::While,
        Some(TokenKind::Key(Keyword::Do)) => StmtForm::Do,
        Some(TokenKind::Key(Keyword::For)) => StmtForm::For,
        Some(TokenKind::Key(Keyword::Switch)) => StmtForm::Switch,
        Some(TokenKind::Key(Keyword::Break)) => StmtForm::Break,
        Some(TokenKind::Key(Keyword::Continue)) => StmtForm::Continue,
        Some(TokenKind::Key(Keyword::Return)) => StmtForm::Return,
        _ => StmtForm::Value,
    }
}

/// What the next tokens begin in the braces of a `switch`.
pub fn item_at(tokens: &[Token]) -> ItemForm
    ensures { result ≡ spec.item_at tokens.now }
{
    match key_at(tokens) {
        Some(Keyword::Case) => ItemForm::Case,
        Some(Keyword::Default) => ItemForm::Default,
        _ => ItemForm::Item,
    }
}

/// Whether the next token is `else`.
pub fn else_at(tokens: &[Token]) -> bool
    ensures { result ≡ spec.else_at tokens.now }
{
    match key_at(tokens) {
        Some(Keyword::Else) => true,
        _ => false,
    }
}

/// Whether the next token is a name.
pub fn name_at(tokens: &[Token]) -> bool
    ensures { result ≡ words.name_at tokens.now }
{
    match next_kind(tokens) {
        Some(TokenKind::Name) => true,
        _ => false,
    }
}

/// Whether the next tokens are type words, a name and `(`, so that a function stands here.
pub fn function_at(tokens: &[Token]) -> bool
    ensures { result ≡ spec.function_at tokens.now }
{
    let after = behind_words(tokens);
    if name_at(after) {
        next_is(behind(after), Punct::OpenParen)
    } else {
        false
    }
}

/// Whether the next token is `void`.
fn void_at(tokens: &[Token]) -> bool
    ensures { result ≡ spec.is_void (words.key_at tokens.now) }
{
    match key_at(tokens) {
        Some(Keyword::Void) => true,
        _ => false,
    }
}

/// What the next tokens put in the parentheses of a function.
pub fn params_at(tokens: &[Token]) -> ParamsForm
    ensures { result ≡ spec.params_at tokens.now }
{
    if next_is(tokens, Punct::CloseParen) {
        ParamsForm::Empty
    } else if void_at(tokens) && next_is(behind(tokens), Punct::CloseParen) {
        ParamsForm::OnlyVoid
    } else {
        ParamsForm::Listed
    }
}

/// Whether each parameter has a name.
pub fn all_named(params: &[Param]) -> bool
    ensures { result ≡ spec.all_named (map param_view params.now) }
{
    for param in params {
        if param.name.is_none() {
            return false;
        }
    }
    true
}

/// Whether a further member of a list follows.
pub fn goes_on(following: Following, tokens: &[Token]) -> bool
    ensures { result ≡ lists.follows following tokens.now }
{
    match following {
        Following::Comma => next_is(tokens, Punct::Comma),
        Following::CommaAndMore => further_at(tokens),
        Following::UpToBrace => !next_is(tokens, Punct::CloseBrace),
        Following::UpToEnd => !tokens.is_empty(),
    }
}

/// Where that member stands: behind the comma, where there is one.
pub fn further<'a>(following: Following, tokens: &'a [Token]) -> &'a [Token]
    ensures member { result.now ≡ lists.member_at following tokens.now }
    ensures shorter { length result.now ≤ length tokens.now }
{
    match following {
        Following::Comma | Following::CommaAndMore => behind(tokens),
        Following::UpToBrace | Following::UpToEnd => tokens,
    }
}
