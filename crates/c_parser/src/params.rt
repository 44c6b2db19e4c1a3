//! Readers of parameters and of the heads of functions.

ghost use Rattle.std.specs.Prelude.{◌≡◌, map};
ghost use Rattle.c_tree.specs.TreeView.{head_view, param_view};
ghost use Rattle.c_grammar.specs.declared.begins.ParamsForm.TheVariants as params;
ghost use Rattle.c_grammar.specs.Rules.{Listed, Rule};
ghost use Rattle.c_grammar.specs.Forms as spec;
ghost use Rattle.c_grammar.specs.Grammar as grammar;
ghost use Rattle.c_grammar.specs.Derivations.{By, Front};
ghost use Rattle.c_grammar.specs.Reads.{Reads};

use crate::made;
use c_exprs::read_list;
use c_grammar::{
    Following, Found, ParamsForm, Read, expect, expect_name, name_at, next_token, params_at,
    type_name,
};
use c_tokens::{Punct, Token};
use c_tree::{Head, Param};
use sqlite_items::Items;
use std::alloc::Global;

/// Where the first token begins, or 0 where there is none.
fn first_start(tokens: &[Token]) -> u32
    ensures { result ≡ spec.first_start tokens.now }
{
    match tokens.split_first() {
        Some((first, _)) => first.start,
        None => 0,
    }
}

/// A parameter: its type, and a name or none.
fn read_parameter<'a>(alloc: Global, text: &'a [u8], tokens: &'a [Token]) -> Read<'a, Param>
    ensures { Reads param_view (Front text.now Rule.parameter tokens.now) 0 result }
{
    let base = type_name(text, tokens)?;
    if !name_at(base.rest) {
        return Ok(Found {
            tree: made::nameless_param(base.tree, first_start(tokens)),
            levels: 0,
            rest: base.rest,
        });
    }
    let name = next_token(text, base.rest)?;
    Ok(Found {
        tree: made::named_param(alloc, text, base.tree, name.tree)?,
        levels: 0,
        rest: name.rest,
    })
}

/// `void`, where it stands alone.
fn read_void<'a>(alloc: Global, text: &'a [u8], tokens: &'a [Token]) -> Read<'a, Items<Param>>
    ensures { Reads (map param_view)
        (By text.now Rule.parameters (grammar.parameters_as params.OnlyVoid) tokens.now) 0
        result }
{
    let word = next_token(text, tokens)?;
    Ok(Found {
        tree: Items::new(alloc),
        levels: 0,
        rest: word.rest,
    })
}

/// Parameters with commas between them.
fn read_listed<'a>(alloc: Global, text: &'a [u8], tokens: &'a [Token]) -> Read<'a, Items<Param>>
    ensures { Reads (map param_view) (Front text.now (Rule.list Listed.parameters) tokens.now)
        0 result }
{
    read_list(
        alloc,
        text,
        Following::Comma,
        tokens,
        (),
        0,
        |alloc, text, rest, _, _| read_parameter(alloc, text, rest),
    )
}

/// What stands in the parentheses of a function.
fn read_parameters<'a>(alloc: Global, text: &'a [u8], tokens: &'a [Token]) -> Read<'a, Items<Param>>
    ensures { Reads (map param_view) (Front text.now Rule.parameters tokens.now) 0 result }
{
    match params_at(tokens) {
        ParamsForm::Empty => Ok(Found {
            tree: Items::new(alloc),
            levels: 0,
            rest: tokens,
        }),
        ParamsForm::OnlyVoid => read_void(alloc, text, tokens),
        ParamsForm::Listed => read_listed(alloc, text, tokens),
    }
}

/// The head of a function, up to its `)`.
pub fn read_head<'a>(alloc: Global, text: &'a [u8], tokens: &'a [Token]) -> Read<'a, Head>
    ensures { Reads head_view (Front text.now Rule.function_head tokens.now) 0 result }
{
    let base = type_name(text, tokens)?;
    let name = expect_name(text, base.rest)?;
    let open = expect(text, name.rest, Punct::OpenParen)?;
    let params = read_parameters(alloc, text, open.rest)?;
    let close = expect(text, params.rest, Punct::CloseParen)?;
    Ok(Found {
        tree: made::head(alloc, text, base.tree, name.tree, params.tree)?,
        levels: 0,
        rest: close.rest,
    })
}
