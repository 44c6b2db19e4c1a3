//! Readers of the conditions of statements.

ghost use Rattle.c_tree.specs.TreeView.{expr_view};
ghost use Rattle.c_grammar.specs.Rules.{Rule};
ghost use Rattle.c_grammar.specs.Derivations.{Front};
ghost use Rattle.c_grammar.specs.Reads.{Reads};

use c_exprs::read_closed;
use c_grammar::{Found, Read, expect, expect_while};
use c_tokens::{Punct, Token};
use c_tree::Expr;
use std::alloc::Global;

/// The condition of a `do`, with the line of its `while`.
#[derive(Drop)]
pub struct Until {
    pub test: Expr,
    pub line: u32,
}

/// An expression in parentheses.
pub fn read_condition<'a>(
    alloc: Global,
    text: &'a [u8],
    tokens: &'a [Token],
    room: u32,
) -> Read<'a, Expr>
    ensures { Reads expr_view (Front text.now Rule.condition tokens.now) room result }
{
    let open = expect(text, tokens, Punct::OpenParen)?;
    let closed = read_closed(alloc, text, open.rest, Punct::CloseParen, room)?;
    Ok(closed)
}

/// What stands behind the body of a `do`: its condition, with the line of its `while`.
pub fn read_until<'a>(
    alloc: Global,
    text: &'a [u8],
    tokens: &'a [Token],
    room: u32,
) -> Read<'a, Until>
    ensures { Reads (λ u. (expr_view u.test, u.line)) (Front text.now Rule.until tokens.now) room
        result }
{
    let word = expect_while(text, tokens)?;
    let test = read_condition(alloc, text, word.rest, room)?;
    let close = expect(text, test.rest, Punct::Semicolon)?;
    Ok(Found {
        tree: Until {
            test: test.tree,
            line: word.tree.line,
        },
        levels: test.levels,
        rest: close.rest,
    })
}
