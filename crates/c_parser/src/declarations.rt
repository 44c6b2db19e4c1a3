//! Readers of declarations of variables.

ghost use Rattle.std.specs.Prelude.{ℕ, false, map, true};
ghost use Rattle.c_tokens.specs.declared.token.Punct.TheVariants as mark;
ghost use Rattle.c_tree.specs.TreeView.{expr_view, init_view, size_view, var_view};
ghost use Rattle.c_grammar.specs.Rules.{Listed, Rule};
ghost use Rattle.c_grammar.specs.Words as words;
ghost use Rattle.c_grammar.specs.Grammar as grammar;
ghost use Rattle.c_grammar.specs.Grammar.{Grammar};
ghost use Rattle.c_grammar.specs.Derivations.{By, Front};
ghost use Rattle.c_grammar.specs.Reads.{Reads};

use crate::made;
use c_exprs::{read_assignment, read_conditional, read_list};
use c_grammar::{Following, Found, Read, expect, expect_name, next_is, next_token, type_name};
use c_tokens::{Punct, Token};
use c_tree::{Base, Expr, Init, Size, Var};
use sqlite_items::Items;
use std::alloc::Global;

/// A length and `]`.
fn read_sized<'a>(alloc: Global, text: &'a [u8], tokens: &'a [Token], room: u32) -> Read<'a, Size>
    ensures { Reads size_view (By text.now Rule.length (grammar.length_as false) tokens.now)
        room result }
{
    let length = read_conditional(alloc, text, tokens, room)?;
    let close = expect(text, length.rest, Punct::CloseBracket)?;
    Ok(Found {
        tree: Size::Len(length.tree),
        levels: length.levels,
        rest: close.rest,
    })
}

/// `]`.
fn read_unsized<'a>(text: &'a [u8], tokens: &'a [Token]) -> Read<'a, Size>
    ensures { (room : ℕ) → Reads size_view
        (By text.now Rule.length (grammar.length_as true) tokens.now) room result }
{
    let close = next_token(text, tokens)?;
    Ok(Found {
        tree: Size::Unsized,
        levels: 0,
        rest: close.rest,
    })
}

/// A length or none, and `]`.
fn read_length<'a>(alloc: Global, text: &'a [u8], tokens: &'a [Token], room: u32) -> Read<'a, Size>
    ensures { Reads size_view (Front text.now Rule.length tokens.now) room result }
{
    if next_is(tokens, Punct::CloseBracket) {
        read_unsized(text, tokens)
    } else {
        read_sized(alloc, text, tokens, room)
    }
}

/// `[`, a length or none, and `]`.
fn read_brackets<'a>(
    alloc: Global,
    text: &'a [u8],
    tokens: &'a [Token],
    room: u32,
) -> Read<'a, Size>
    ensures { Reads size_view (By text.now Rule.size (grammar.size_as true) tokens.now)
        room result }
{
    let open = next_token(text, tokens)?;
    let length = read_length(alloc, text, open.rest, room)?;
    Ok(length)
}

/// What stands behind a variable's name: a length or none in brackets, or nothing.
fn read_size<'a>(alloc: Global, text: &'a [u8], tokens: &'a [Token], room: u32) -> Read<'a, Size>
    ensures { Reads size_view (Front text.now Rule.size tokens.now) room result }
{
    if next_is(tokens, Punct::OpenBracket) {
        return read_brackets(alloc, text, tokens, room);
    }
    Ok(Found {
        tree: Size::Scalar,
        levels: 0,
        rest: tokens,
    })
}

/// Values with commas between them. A comma before `}` stays behind them.
fn read_values<'a>(
    alloc: Global,
    text: &'a [u8],
    tokens: &'a [Token],
    room: u32,
) -> Read<'a, Items<Expr>>
    ensures { Reads (map expr_view) (Front text.now (Rule.list Listed.values) tokens.now)
        room result }
{
    read_list(
        alloc,
        text,
        Following::CommaAndMore,
        tokens,
        (),
        room,
        |alloc, text, rest, _, room| read_assignment(alloc, text, rest, room),
    )
}

/// A comma or none, and the `}` behind values.
fn read_close<'a>(text: &'a [u8], tokens: &'a [Token], values: Items<Expr>) -> Read<'a, Init>
    ensures { (room : ℕ) → Reads init_view (By text.now Rule.given
        (Grammar.look (λ ts. grammar.braced (map expr_view values) (words.next_is mark.Comma ts)))
        tokens.now) room result }
{
    if next_is(tokens, Punct::Comma) {
        let comma = next_token(text, tokens)?;
        let close = expect(text, comma.rest, Punct::CloseBrace)?;
        return Ok(Found {
            tree: Init::List(values),
            levels: 0,
            rest: close.rest,
        });
    }
    let close = expect(text, tokens, Punct::CloseBrace)?;
    Ok(Found {
        tree: Init::List(values),
        levels: 0,
        rest: close.rest,
    })
}

/// Values in braces, with a comma behind the last or without it.
fn read_several<'a>(alloc: Global, text: &'a [u8], tokens: &'a [Token], room: u32) -> Read<'a, Init>
    ensures { Reads init_view (By text.now Rule.given (grammar.given_as true) tokens.now)
        room result }
{
    let open = next_token(text, tokens)?;
    let values = read_values(alloc, text, open.rest, room)?;
    let close = read_close(text, values.rest, values.tree)?;
    Ok(Found {
        tree: close.tree,
        levels: values.levels,
        rest: close.rest,
    })
}

/// An assignment as an initialiser.
fn read_single<'a>(alloc: Global, text: &'a [u8], tokens: &'a [Token], room: u32) -> Read<'a, Init>
    ensures { Reads init_view (By text.now Rule.given (grammar.given_as false) tokens.now)
        room result }
{
    let value = read_assignment(alloc, text, tokens, room)?;
    Ok(Found {
        tree: Init::One(value.tree),
        levels: value.levels,
        rest: value.rest,
    })
}

/// What stands behind `=`.
fn read_given<'a>(alloc: Global, text: &'a [u8], tokens: &'a [Token], room: u32) -> Read<'a, Init>
    ensures { Reads init_view (Front text.now Rule.given tokens.now) room result }
{
    if next_is(tokens, Punct::OpenBrace) {
        read_several(alloc, text, tokens, room)
    } else {
        read_single(alloc, text, tokens, room)
    }
}

/// `=` and an initialiser.
fn read_equals<'a>(alloc: Global, text: &'a [u8], tokens: &'a [Token], room: u32) -> Read<'a, Init>
    ensures { Reads init_view
        (By text.now Rule.initialiser (grammar.initialiser_as true) tokens.now) room result }
{
    let equals = next_token(text, tokens)?;
    let given = read_given(alloc, text, equals.rest, room)?;
    Ok(given)
}

/// `=` and an initialiser, or nothing.
fn read_initialiser<'a>(
    alloc: Global,
    text: &'a [u8],
    tokens: &'a [Token],
    room: u32,
) -> Read<'a, Init>
    ensures { Reads init_view (Front text.now Rule.initialiser tokens.now) room result }
{
    if next_is(tokens, Punct::Assign) {
        return read_equals(alloc, text, tokens, room);
    }
    Ok(Found {
        tree: Init::Absent,
        levels: 0,
        rest: tokens,
    })
}

/// A variable of this type.
fn read_variable<'a>(
    alloc: Global,
    text: &'a [u8],
    tokens: &'a [Token],
    base: Base,
    room: u32,
) -> Read<'a, Var>
    ensures { Reads var_view (Front text.now (Rule.variable base) tokens.now) room result }
{
    let name = expect_name(text, tokens)?;
    let size = read_size(alloc, text, name.rest, room)?;
    let init = read_initialiser(alloc, text, size.rest, room)?;
    Ok(Found {
        tree: made::variable(alloc, text, base, name.tree, size.tree, init.tree)?,
        levels: size.levels.max(init.levels),
        rest: init.rest,
    })
}

/// Variables of this type with commas between them.
fn read_variables<'a>(
    alloc: Global,
    text: &'a [u8],
    base: Base,
    tokens: &'a [Token],
    room: u32,
) -> Read<'a, Items<Var>>
    ensures { Reads (map var_view) (Front text.now (Rule.list (Listed.variables base)) tokens.now)
        room result }
{
    read_list(
        alloc,
        text,
        Following::Comma,
        tokens,
        base,
        room,
        read_variable,
    )
}

/// A declaration of variables, up to its `;`.
pub fn read_declaration<'a>(
    alloc: Global,
    text: &'a [u8],
    tokens: &'a [Token],
    room: u32,
) -> Read<'a, Items<Var>>
    ensures { Reads (map var_view) (Front text.now Rule.declaration tokens.now) room result }
{
    let base = type_name(text, tokens)?;
    let variables = read_variables(alloc, text, base.tree, base.rest, room)?;
    let close = expect(text, variables.rest, Punct::Semicolon)?;
    Ok(Found {
        tree: variables.tree,
        levels: variables.levels,
        rest: close.rest,
    })
}
