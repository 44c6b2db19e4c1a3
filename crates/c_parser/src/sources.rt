//! Readers of functions and of the parts of a source.

ghost use Rattle.std.specs.Prelude.{ℕ, false, map, true};
ghost use Rattle.c_tree.specs.TreeView.{head_view, outer_view};
ghost use Rattle.c_grammar.specs.Rules.{Listed, Rule};
ghost use Rattle.c_grammar.specs.Grammar as grammar;
ghost use Rattle.c_grammar.specs.Derivations.{By, Front};
ghost use Rattle.c_grammar.specs.Reads.{Reads};

use crate::declarations::read_declaration;
use crate::params::read_head;
use crate::statements::read_items;
use c_exprs::read_more;
use c_grammar::{
    Following, Found, ParseFault, Read, all_named, expect, function_at, next_is, next_token,
    place_at,
};
use c_tokens::{Punct, Token};
use c_tree::{Head, Outer};
use cov_base::Refusal;
use sqlite_items::Items;
use std::alloc::Global;

/// The `;` behind a head.
fn read_prototype<'a>(text: &'a [u8], head: Head, tokens: &'a [Token]) -> Read<'a, Outer>
    ensures { (room : ℕ) → Reads outer_view (By text.now (Rule.body (head_view head))
        (grammar.body_as (head_view head) true) tokens.now) room result }
{
    let close = next_token(text, tokens)?;
    Ok(Found {
        tree: Outer::Prototype(head),
        levels: 0,
        rest: close.rest,
    })
}

/// The items of a definition in braces.
fn read_definition<'a>(
    alloc: Global,
    text: &'a [u8],
    head: Head,
    tokens: &'a [Token],
    room: u32,
) -> Read<'a, Outer>
    ensures { Reads outer_view (By text.now (Rule.body (head_view head))
        (grammar.definition (head_view head) true) tokens.now) room result }
{
    let open = expect(text, tokens, Punct::OpenBrace)?;
    let items = read_items(alloc, text, open.rest, room)?;
    let close = expect(text, items.rest, Punct::CloseBrace)?;
    Ok(Found {
        tree: Outer::Function(head, items.tree),
        levels: items.levels,
        rest: close.rest,
    })
}

/// What stands behind a head: `;`, or the body of a definition, whose parameters have names.
fn read_body<'a>(
    alloc: Global,
    text: &'a [u8],
    head: Head,
    tokens: &'a [Token],
    room: u32,
) -> Read<'a, Outer>
    ensures { Reads outer_view (Front text.now (Rule.body (head_view head)) tokens.now) room
        result }
{
    if next_is(tokens, Punct::Semicolon) {
        read_prototype(text, head, tokens)
    } else if all_named(head.params.as_slice()) {
        read_definition(alloc, text, head, tokens, room)
    } else {
        Err(Refusal::Refused(ParseFault::Syntax(place_at(text, tokens))))
    }
}

/// A function: its head and what stands behind it.
fn read_function<'a>(
    alloc: Global,
    text: &'a [u8],
    tokens: &'a [Token],
    room: u32,
) -> Read<'a, Outer>
    ensures { Reads outer_view (By text.now Rule.outer (grammar.outer_as true) tokens.now) room
        result }
{
    let head = read_head(alloc, text, tokens)?;
    let body = read_body(alloc, text, head.tree, head.rest, room)?;
    Ok(body)
}

/// A declaration of variables outside all functions.
fn read_globals<'a>(
    alloc: Global,
    text: &'a [u8],
    tokens: &'a [Token],
    room: u32,
) -> Read<'a, Outer>
    ensures { Reads outer_view (By text.now Rule.outer (grammar.outer_as false) tokens.now) room
        result }
{
    let variables = read_declaration(alloc, text, tokens, room)?;
    Ok(Found {
        tree: Outer::Vars(variables.tree),
        levels: variables.levels,
        rest: variables.rest,
    })
}

/// A function, or a declaration of variables.
fn read_outer<'a>(alloc: Global, text: &'a [u8], tokens: &'a [Token], room: u32) -> Read<'a, Outer>
    ensures { Reads outer_view (Front text.now Rule.outer tokens.now) room result }
{
    if function_at(tokens) {
        read_function(alloc, text, tokens, room)
    } else {
        read_globals(alloc, text, tokens, room)
    }
}

/// All parts of a source.
pub fn read_outers<'a>(
    alloc: Global,
    text: &'a [u8],
    tokens: &'a [Token],
    room: u32,
) -> Read<'a, Items<Outer>>
    ensures { Reads (map outer_view) (Front text.now (Rule.more Listed.outers) tokens.now) room
        result }
{
    read_more(
        alloc,
        text,
        Following::UpToEnd,
        tokens,
        (),
        room,
        |alloc, text, rest, _, room| read_outer(alloc, text, rest, room),
    )
}
