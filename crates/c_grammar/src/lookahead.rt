//! What the next tokens begin.

ghost use Rattle.std.specs.Prelude.{◌≡◌};
ghost use Rattle.c_grammar.specs.Words as spec;
ghost use Rattle.c_grammar.specs.Operators as operators;
ghost use Rattle.c_tree.specs.TreeView.{expr_view};

use crate::begins::{BinaryOperator, Operand, Prefix, UnaryOperator};
use crate::type_words::is_type_word;
use c_tokens::{Keyword, Punct, Token, TokenKind};
use c_tree::{Expr, ExprKind};
use int_ops::BinOp;

/// The kind of the next token, where there is one.
pub fn next_kind(tokens: &[Token]) -> Option<TokenKind>
    ensures { result ≡ spec.next_kind tokens.now }
{
    match tokens.split_first() {
        Some((first, _)) => Some(first.kind),
        None => None,
    }
}

/// Where the next token begins, or the length of the text where there is none.
pub fn place_at(text: &[u8], tokens: &[Token]) -> u32
    ensures { result ≡ spec.place_at text.now tokens.now }
{
    match tokens.split_first() {
        Some((first, _)) => first.start,
        None => text.len().min(u32::MAX as usize) as u32,
    }
}

/// The bytes of the text at a token.
pub fn name_of<'a>(text: &'a [u8], token: Token) -> &'a [u8]
    ensures { result.now ≡ spec.name_of text.now token }
{
    let start = (token.start as usize).min(text.len());
    let from = &text[start..];
    let len = (token.end as usize).saturating_sub(token.start as usize);
    &from[..len.min(from.len())]
}

/// What stands behind the next token.
pub fn behind<'a>(tokens: &'a [Token]) -> &'a [Token]
    ensures { result.now ≡ spec.behind tokens.now }
{
    match tokens.split_first() {
        Some((_, rest)) => rest,
        None => tokens,
    }
}

/// The mark that the next token is.
pub fn mark_at(tokens: &[Token]) -> Option<Punct>
    ensures { result ≡ spec.mark_at tokens.now }
{
    match next_kind(tokens) {
        Some(TokenKind::Mark(mark)) => Some(mark),
        _ => None,
    }
}

/// Whether the next token is this mark.
pub fn next_is(tokens: &[Token], mark: Punct) -> bool
    ensures { result ≡ spec.next_is mark tokens.now }
{
    match mark_at(tokens) {
        Some(next) => next == mark,
        None => false,
    }
}

/// The keyword that the next token is.
pub fn key_at(tokens: &[Token]) -> Option<Keyword>
    ensures { result ≡ spec.key_at tokens.now }
{
    match next_kind(tokens) {
        Some(TokenKind::Key(keyword)) => Some(keyword),
        _ => None,
    }
}

/// Whether the next token is a type word.
pub fn type_at(tokens: &[Token]) -> bool
    ensures { result ≡ spec.type_at tokens.now }
{
    match key_at(tokens) {
        Some(keyword) => is_type_word(keyword),
        None => false,
    }
}

/// The operand that the next tokens begin.
pub fn operand_at(tokens: &[Token]) -> Operand
    ensures { result ≡ operators.operand_at tokens.now }
{
    match next_kind(tokens) {
        Some(TokenKind::Name) => match mark_at(behind(tokens)) {
            Some(Punct::OpenParen) => Operand::Call,
            Some(Punct::OpenBracket) => Operand::Index,
            _ => Operand::Name,
        },
        Some(TokenKind::Number(number, number_type)) => Operand::Number(number, number_type),
        Some(TokenKind::EofName) => Operand::EofName,
        Some(TokenKind::Mark(Punct::OpenParen)) => Operand::Paren,
        _ => Operand::Absent,
    }
}

/// The increment or decrement that the next token is: `++` or `--`, as the operators `+` and `-`.
pub fn increment_at(tokens: &[Token]) -> Option<BinOp>
    ensures { result ≡ operators.increment_at tokens.now }
{
    match mark_at(tokens) {
        Some(Punct::PlusPlus) => Some(BinOp::Add),
        Some(Punct::MinusMinus) => Some(BinOp::Sub),
        _ => None,
    }
}

/// The prefix that the next token is.
pub fn prefix_at(tokens: &[Token]) -> Prefix
    ensures { result ≡ operators.prefix_at tokens.now }
{
    match mark_at(tokens) {
        Some(Punct::PlusPlus) => Prefix::Increment(BinOp::Add),
        Some(Punct::MinusMinus) => Prefix::Increment(BinOp::Sub),
        Some(Punct::Plus) => Prefix::Operator(UnaryOperator::Plus),
        Some(Punct::Minus) => Prefix::Operator(UnaryOperator::Minus),
        Some(Punct::Tilde) => Prefix::Operator(UnaryOperator::Complement),
        Some(Punct::Not) => Prefix::Operator(UnaryOperator::Not),
        _ => Prefix::Absent,
    }
}

/// Whether the next tokens begin a cast: `(` and a type word.
pub fn cast_at(tokens: &[Token]) -> bool
    ensures { result ≡ operators.cast_at tokens.now }
{
    if next_is(tokens, Punct::OpenParen) {
        type_at(behind(tokens))
    } else {
        false
    }
}

/// The binary operator that a mark is.
fn operator_of(mark: Punct) -> Option<BinaryOperator>
    ensures { result ≡ operators.operator_of mark }
{
    match mark {
        Punct::Star => Some(BinaryOperator::Plain(BinOp::Mul)),
        Punct::Slash => Some(BinaryOperator::Plain(BinOp::Div)),
        Punct::Percent => Some(BinaryOperator::Plain(BinOp::Rem)),
        Punct::Plus => Some(BinaryOperator::Plain(BinOp::Add)),
        Punct::Minus => Some(BinaryOperator::Plain(BinOp::Sub)),
        Punct::ShiftLeft => Some(BinaryOperator::Plain(BinOp::Shl)),
        Punct::ShiftRight => Some(BinaryOperator::Plain(BinOp::Shr)),
        Punct::Less => Some(BinaryOperator::Plain(BinOp::Less)),
        Punct::Greater => Some(BinaryOperator::Plain(BinOp::Greater)),
        Punct::LessEqual => Some(BinaryOperator::Plain(BinOp::LessEqual)),
        Punct::GreaterEqual => Some(BinaryOperator::Plain(BinOp::GreaterEqual)),
        Punct::EqualEqual => Some(BinaryOperator::Plain(BinOp::Equal)),
        Punct::NotEqual => Some(BinaryOperator::Plain(BinOp::NotEqual)),
        Punct::And => Some(BinaryOperator::Plain(BinOp::And)),
        Punct::Caret => Some(BinaryOperator::Plain(BinOp::Xor)),
        Punct::Or => Some(BinaryOperator::Plain(BinOp::Or)),
        Punct::AndAnd => Some(BinaryOperator::LogicalAnd),
        Punct::OrOr => Some(BinaryOperator::LogicalOr),
        _ => None,
    }
}

/// The precedence of an operator, from the tightest.
fn precedence_of(op: BinOp) -> u8
    ensures { result ≡ operators.precedence_of op }
{
    match op {
        BinOp::Mul | BinOp::Div | BinOp::Rem => 1,
        BinOp::Add | BinOp::Sub => 2,
        BinOp::Shl | BinOp::Shr => 3,
        BinOp::Less | BinOp::Greater | BinOp::LessEqual | BinOp::GreaterEqual => 4,
        BinOp::Equal | BinOp::NotEqual => 5,
        BinOp::And => 6,
        BinOp::Xor => 7,
        BinOp::Or => 8,
    }
}

/// The precedence of a binary operator, from the tightest, 1, to the loosest, 10.
fn operator_precedence(operator: BinaryOperator) -> u8
    ensures { result ≡ operators.operator_precedence operator }
{
    match operator {
        BinaryOperator::Plain(op) => precedence_of(op),
        BinaryOperator::LogicalAnd => 9,
        BinaryOperator::LogicalOr => 10,
    }
}

/// The operator where it has this precedence.
fn with_precedence(precedence: u8, operator: Option<BinaryOperator>) -> Option<BinaryOperator>
    ensures { result ≡ operators.with_precedence precedence operator }
{
    match operator {
        Some(operator) => {
            if operator_precedence(operator) == precedence {
                Some(operator)
            } else {
                None
            }
        }
        None => None,
    }
}

/// The binary operator that the next token is.
fn next_operator(tokens: &[Token]) -> Option<BinaryOperator>
    ensures { result ≡ operators.operator_if (spec.mark_at tokens.now) }
{
    match mark_at(tokens) {
        Some(mark) => operator_of(mark),
        None => None,
    }
}

/// The operator of this precedence that the next token is.
pub fn operator_at(precedence: u8, tokens: &[Token]) -> Option<BinaryOperator>
    ensures { result ≡ operators.operator_at precedence tokens.now }
{
    with_precedence(precedence, next_operator(tokens))
}

/// The assignment that the next token is; `=` has no operator.
pub fn assignment_at(tokens: &[Token]) -> Option<Option<BinOp>>
    ensures { result ≡ operators.assignment_at tokens.now }
{
    match mark_at(tokens) {
        Some(Punct::Assign) => Some(None),
        Some(Punct::StarAssign) => Some(Some(BinOp::Mul)),
        Some(Punct::SlashAssign) => Some(Some(BinOp::Div)),
        Some(Punct::PercentAssign) => Some(Some(BinOp::Rem)),
        Some(Punct::PlusAssign) => Some(Some(BinOp::Add)),
        Some(Punct::MinusAssign) => Some(Some(BinOp::Sub)),
        Some(Punct::ShiftLeftAssign) => Some(Some(BinOp::Shl)),
        Some(Punct::ShiftRightAssign) => Some(Some(BinOp::Shr)),
        Some(Punct::AndAssign) => Some(Some(BinOp::And)),
        Some(Punct::CaretAssign) => Some(Some(BinOp::Xor)),
        Some(Punct::OrAssign) => Some(Some(BinOp::Or)),
        _ => None,
    }
}

/// Whether a unary expression has this tree.
pub fn is_unary(expr: &Expr) -> bool
    ensures { result ≡ operators.is_unary (expr_view expr.now) }
{
    match &expr.kind {
        ExprKind::Cast(_, _)
        | ExprKind::Binary(_, _, _)
        | ExprKind::AndAlso(_, _)
        | ExprKind::OrElse(_, _)
        | ExprKind::Choose(_, _, _)
        | ExprKind::Assign(_, _, _)
        | ExprKind::Comma(_, _) => false,
        _ => true,
    }
}
