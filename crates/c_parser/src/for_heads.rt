//! Readers of what stands in the parentheses of a `for`.

ghost use Rattle.std.specs.Prelude.{ℕ, false, option_map, true};
ghost use Rattle.c_tree.specs.TreeView.{expr_view, for_view, other_of, stmt_view};
ghost use Rattle.c_grammar.specs.Rules.{Rule};
ghost use Rattle.c_grammar.specs.Grammar as grammar;
ghost use Rattle.c_grammar.specs.Derivations.{By, Front};
ghost use Rattle.c_grammar.specs.Reads.{Reads};

use crate::declarations::read_declaration;
use crate::made;
use c_exprs::{read_closed, read_ended};
use c_grammar::{Found, ParseFault, Read, expect, next_is, place_at, type_at};
use c_tokens::{Punct, Token};
use c_tree::{Expr, ForHead, Stmt, make_stmt};
use cov_base::Refusal;
use sqlite_items::Boxed;
use std::alloc::Global;

/// The condition and the step of a `for`, each of which may be left out.
#[derive(Drop)]
struct Controls {
    test: Option<Boxed<Expr>>,
    step: Option<Boxed<Expr>>,
}

/// A declaration.
fn read_first_variables<'a>(
    alloc: Global,
    text: &'a [u8],
    tokens: &'a [Token],
    room: u32,
) -> Read<'a, Option<Stmt>>
    ensures { Reads (λ s. other_of (option_map stmt_view s))
        (By text.now Rule.first (grammar.first_as true false) tokens.now) room result }
{
    if room == 0 {
        return Err(Refusal::Refused(ParseFault::TooDeep(place_at(text, tokens))));
    }
    let variables = read_declaration(alloc, text, tokens, room - 1)?;
    Ok(Found {
        tree: Some(make_stmt::vars(variables.tree)),
        levels: variables.levels + 1,
        rest: variables.rest,
    })
}

/// `;` alone.
fn read_no_first<'a>(text: &'a [u8], tokens: &'a [Token]) -> Read<'a, Option<Stmt>>
    ensures { (room : ℕ) → Reads (λ s. other_of (option_map stmt_view s))
        (By text.now Rule.first (grammar.first_as false true) tokens.now) room result }
{
    let close = expect(text, tokens, Punct::Semicolon)?;
    Ok(Found {
        tree: None,
        levels: 0,
        rest: close.rest,
    })
}

/// An expression and `;`.
fn read_first_value<'a>(
    alloc: Global,
    text: &'a [u8],
    tokens: &'a [Token],
    room: u32,
) -> Read<'a, Option<Stmt>>
    ensures { Reads (λ s. other_of (option_map stmt_view s))
        (By text.now Rule.first (grammar.first_as false false) tokens.now) room result }
{
    if room == 0 {
        return Err(Refusal::Refused(ParseFault::TooDeep(place_at(text, tokens))));
    }
    let value = read_closed(alloc, text, tokens, Punct::Semicolon, room - 1)?;
    Ok(Found {
        tree: Some(made::stated(alloc, value.tree)?),
        levels: value.levels + 1,
        rest: value.rest,
    })
}

/// The first part: a declaration, or an expression or none and `;`.
fn read_first<'a>(
    alloc: Global,
    text: &'a [u8],
    tokens: &'a [Token],
    room: u32,
) -> Read<'a, Option<Stmt>>
    ensures { Reads (λ s. other_of (option_map stmt_view s)) (Front text.now Rule.first tokens.now)
        room result }
{
    if type_at(tokens) {
        read_first_variables(alloc, text, tokens, room)
    } else if next_is(tokens, Punct::Semicolon) {
        read_no_first(text, tokens)
    } else {
        read_first_value(alloc, text, tokens, room)
    }
}

/// The condition and the step, and the `)`.
fn read_controls<'a>(
    alloc: Global,
    text: &'a [u8],
    tokens: &'a [Token],
    room: u32,
) -> Read<'a, Controls>
    ensures { Reads (λ c. (option_map expr_view c.test, option_map expr_view c.step))
        (Front text.now Rule.controls tokens.now) room result }
{
    let test = read_ended(alloc, text, tokens, Punct::Semicolon, room)?;
    let step = read_ended(alloc, text, test.rest, Punct::CloseParen, room)?;
    Ok(Found {
        tree: Controls {
            test: test.tree,
            step: step.tree,
        },
        levels: test.levels.max(step.levels),
        rest: step.rest,
    })
}

/// What stands between `for` and its body.
pub fn read_for_head<'a>(
    alloc: Global,
    text: &'a [u8],
    tokens: &'a [Token],
    room: u32,
) -> Read<'a, ForHead>
    ensures { Reads for_view (Front text.now Rule.for_head tokens.now) room result }
{
    let open = expect(text, tokens, Punct::OpenParen)?;
    let first = read_first(alloc, text, open.rest, room)?;
    let controls = read_controls(alloc, text, first.rest, room)?;
    Ok(Found {
        tree: ForHead {
            first: first.tree,
            test: controls.tree.test,
            step: controls.tree.step,
        },
        levels: first.levels.max(controls.levels),
        rest: controls.rest,
    })
}
