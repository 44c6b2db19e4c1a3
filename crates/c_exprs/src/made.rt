//! Expressions that stand at a token.

ghost use Rattle.std.specs.Prelude.{◌≡◌, map, IfOk};
ghost use Rattle.c_tree.specs.TreeView.{kind_view, expr_view, exprs_of};
ghost use Rattle.c_tree.specs.Expr.{Kind};
ghost use Rattle.c_grammar.specs.Words.{name_of};
ghost use Rattle.c_grammar.specs.Operators as spec;

use c_grammar::{BinaryOperator, UnaryOperator, name_of};
use c_tokens::Token;
use c_tree::{Expr, ExprKind, Ident, make};
use int_ops::IntType;
use sqlite_items::Items;
use std::alloc::{AllocError, Global};

/// A form with the place and line of a token.
pub fn at(token: Token, kind: ExprKind) -> Expr
    ensures { expr_view result ≡ spec.at token (kind_view kind) }
{
    Expr {
        kind,
        place: token.start,
        line: token.line,
    }
}

/// The number that a token is.
pub fn number(token: Token, number: i128, number_type: IntType) -> Expr
    ensures { expr_view result ≡ spec.at token (Kind.Number number number_type) }
{
    at(token, ExprKind::Number(number, number_type))
}

/// The `EOF` that a token is.
pub fn eof_name(token: Token) -> Expr
    ensures { expr_view result ≡ spec.at token Kind.EofName }
{
    at(token, ExprKind::EofName)
}

/// The name that a token is.
pub fn name(alloc: Global, text: &[u8], token: Token) -> Result<Expr, AllocError>
    ensures { IfOk result (λ e. expr_view e ≡ spec.at token (Kind.Name (name_of text.now token))) }
{
    let kind = ExprKind::Name(Ident::of(alloc, name_of(text, token))?);
    Ok(at(token, kind))
}

/// A call of the name that a token is.
pub fn call(alloc: Global, text: &[u8], token: Token, args: Items<Expr>) -> Result<Expr, AllocError>
    ensures { IfOk result (λ e. expr_view e
        ≡ spec.at token (Kind.Call (name_of text.now token) (exprs_of (map expr_view args)))) }
{
    let kind = make::call(Ident::of(alloc, name_of(text, token))?, args);
    Ok(at(token, kind))
}

/// An element of the array that a token names; the tree stands at its `[`.
pub fn index(
    alloc: Global,
    text: &[u8],
    array: Token,
    bracket: Token,
    operand: Expr,
) -> Result<Expr, AllocError>
    ensures { IfOk result (λ e. expr_view e ≡ spec.at bracket
        (Kind.Index (name_of text.now array) array.start array.line (expr_view operand))) }
{
    let kind = make::index(
        alloc,
        Ident::of(alloc, name_of(text, array))?,
        array.start,
        array.line,
        operand,
    )?;
    Ok(at(bracket, kind))
}

/// A unary operator and its operand.
pub fn signed(
    alloc: Global,
    token: Token,
    operator: UnaryOperator,
    operand: Expr,
) -> Result<Expr, AllocError>
    ensures { IfOk result (λ e. expr_view e
        ≡ spec.at token (spec.signed operator (expr_view operand))) }
{
    let kind = match operator {
        UnaryOperator::Plus => make::plus(alloc, operand)?,
        UnaryOperator::Minus => make::minus(alloc, operand)?,
        UnaryOperator::Complement => make::complement(alloc, operand)?,
        UnaryOperator::Not => make::not(alloc, operand)?,
    };
    Ok(at(token, kind))
}

/// Two operands and their operator.
pub fn joined(
    alloc: Global,
    token: Token,
    operator: BinaryOperator,
    left: Expr,
    right: Expr,
) -> Result<Expr, AllocError>
    ensures { IfOk result (λ e. expr_view e
        ≡ spec.at token (spec.joined operator (expr_view left) (expr_view right))) }
{
    let kind = match operator {
        BinaryOperator::Plain(op) => make::binary(alloc, op, left, right)?,
        BinaryOperator::LogicalAnd => make::and_also(alloc, left, right)?,
        BinaryOperator::LogicalOr => make::or_else(alloc, left, right)?,
    };
    Ok(at(token, kind))
}
