//! Expressions, and expressions with a mark behind them.

ghost use Rattle.std.specs.Prelude.{option_map};
ghost use Rattle.c_tree.specs.TreeView.{expr_view};
ghost use Rattle.c_grammar.specs.Rules.{Rule};
ghost use Rattle.c_grammar.specs.Derivations.{Front};
ghost use Rattle.c_grammar.specs.Reads.{Reads};

use crate::nested::{Nest, read_inner};
use c_grammar::{Found, Read, close, expect, next_is};
use c_tokens::{Punct, Token};
use c_tree::Expr;
use sqlite_items::Boxed;
use std::alloc::Global;

/// An expression of at most `room` levels.
pub fn read_expression<'a>(
    alloc: Global,
    text: &'a [u8],
    tokens: &'a [Token],
    room: u32,
) -> Read<'a, Expr>
    ensures { Reads expr_view (Front text.now Rule.expression tokens.now) room result }
{
    read_inner(alloc, text, tokens, Nest::Expression, room)
}

/// An assignment expression of at most `room` levels.
pub fn read_assignment<'a>(
    alloc: Global,
    text: &'a [u8],
    tokens: &'a [Token],
    room: u32,
) -> Read<'a, Expr>
    ensures { Reads expr_view (Front text.now Rule.assignment tokens.now) room result }
{
    read_inner(alloc, text, tokens, Nest::Assignment, room)
}

/// A conditional expression of at most `room` levels.
pub fn read_conditional<'a>(
    alloc: Global,
    text: &'a [u8],
    tokens: &'a [Token],
    room: u32,
) -> Read<'a, Expr>
    ensures { Reads expr_view (Front text.now Rule.conditional tokens.now) room result }
{
    read_inner(alloc, text, tokens, Nest::Conditional, room)
}

/// An expression of at most `room` levels, and this mark behind it.
pub fn read_closed<'a>(
    alloc: Global,
    text: &'a [u8],
    tokens: &'a [Token],
    mark: Punct,
    room: u32,
) -> Read<'a, Expr>
    ensures { Reads expr_view (Front text.now (Rule.closed mark) tokens.now) room result }
{
    let inner = read_expression(alloc, text, tokens, room)?;
    close(text, inner, mark)
}

/// An expression of at most `room` levels and this mark behind it, or the mark alone.
pub fn read_ended<'a>(
    alloc: Global,
    text: &'a [u8],
    tokens: &'a [Token],
    mark: Punct,
    room: u32,
) -> Read<'a, Option<Boxed<Expr>>>
    ensures { Reads (option_map expr_view) (Front text.now (Rule.ended mark) tokens.now) room
        result }
{
    if next_is(tokens, mark) {
        let close = expect(text, tokens, mark)?;
        return Ok(Found {
            tree: None,
            levels: 0,
            rest: close.rest,
        });
    }
    let found = read_closed(alloc, text, tokens, mark, room)?;
    Ok(Found {
        tree: Some(Boxed::new(alloc, found.tree)?),
        levels: found.levels,
        rest: found.rest,
    })
}
