//! Readers of `switch`, its labels and its items.

ghost use Rattle.std.specs.Prelude.{ℕ, ◌+◌, ◌<◌, map};
ghost use Rattle.c_tree.specs.TreeView.{item_view, stmt_view};
ghost use Rattle.c_grammar.specs.declared.begins.ItemForm.TheVariants as label;
ghost use Rattle.c_grammar.specs.declared.begins.StmtForm.TheVariants as form;
ghost use Rattle.c_grammar.specs.Rules.{Listed, Rule};
ghost use Rattle.c_grammar.specs.Grammar as grammar;
ghost use Rattle.c_grammar.specs.Derivations.{By, Front};
ghost use Rattle.c_grammar.specs.Reads.{Reads};
ghost use Rattle.c_parser.specs.Nests.{Nests};

use crate::conditions::read_condition;
use crate::made;
use crate::statements::{Statements, read_item};
use c_exprs::{read_conditional, read_more};
use c_grammar::{Following, Found, ItemForm, Read, expect, item_at, next_token};
use c_tokens::{Punct, Token};
use c_tree::{Stmt, SwitchItem};
use sqlite_items::Items;
use std::alloc::Global;

/// `case`, a value and `:`.
fn read_case<'a>(
    alloc: Global,
    text: &'a [u8],
    tokens: &'a [Token],
    room: u32,
) -> Read<'a, SwitchItem>
    ensures { Reads item_view (By text.now Rule.switch_item (grammar.switch_item_as label.Case)
        tokens.now) room result }
{
    let word = next_token(text, tokens)?;
    let value = read_conditional(alloc, text, word.rest, room)?;
    let colon = expect(text, value.rest, Punct::Colon)?;
    Ok(Found {
        tree: made::case(alloc, word.tree, value.tree)?,
        levels: value.levels,
        rest: colon.rest,
    })
}

/// `default:`
fn read_default<'a>(text: &'a [u8], tokens: &'a [Token]) -> Read<'a, SwitchItem>
    ensures { (room : ℕ) → Reads item_view
        (By text.now Rule.switch_item (grammar.switch_item_as label.Default) tokens.now) room
        result }
{
    let word = next_token(text, tokens)?;
    let colon = expect(text, word.rest, Punct::Colon)?;
    Ok(Found {
        tree: made::default(word.tree),
        levels: 0,
        rest: colon.rest,
    })
}

/// A declaration or a statement in the braces of a `switch`.
fn read_labelled<'a, F: Copy + Fn(Global, &'a [u8], &'a [Token], u32) -> Read<'a, Stmt>>(
    alloc: Global,
    text: &'a [u8],
    tokens: &'a [Token],
    inner: F,
    room: u32,
) -> Read<'a, SwitchItem>
    requires { Nests room (F.pre inner) (F.post inner) }
    ensures { Reads item_view (By text.now Rule.switch_item (grammar.switch_item_as label.Item)
        tokens.now) room result }
{
    let item = read_item(alloc, text, tokens, inner, room)?;
    Ok(Found {
        tree: made::item_of(item.tree),
        levels: item.levels,
        rest: item.rest,
    })
}

/// A label of a `switch`, or an item. The function value reads statements.
fn read_switch_item<'a, F: Copy + Fn(Global, &'a [u8], &'a [Token], u32) -> Read<'a, Stmt>>(
    alloc: Global,
    text: &'a [u8],
    tokens: &'a [Token],
    inner: F,
    room: u32,
) -> Read<'a, SwitchItem>
    requires { Nests room (F.pre inner) (F.post inner) }
    ensures { Reads item_view (Front text.now Rule.switch_item tokens.now) room result }
{
    match item_at(tokens) {
        ItemForm::Case => read_case(alloc, text, tokens, room),
        ItemForm::Default => read_default(text, tokens),
        ItemForm::Item => read_labelled(alloc, text, tokens, inner, room),
    }
}

impl<'a, F: Copy + Fn(Global, &'a [u8], &'a [Token], u32) -> Read<'a, Stmt>> Statements<'a, F> {
    /// Labels and items, up to `}`.
    fn switch_items(&self, tokens: &'a [Token]) -> Read<'a, Items<SwitchItem>>
        requires { Nests self.now.room (F.pre self.now.inner) (F.post self.now.inner) }
        ensures { Reads (map item_view)
            (Front self.now.text.now (Rule.more Listed.switch_items) tokens.now) self.now.room
            result }
    {
        read_more(
            self.alloc,
            self.text,
            Following::UpToBrace,
            tokens,
            self.inner,
            self.room,
            read_switch_item,
        )
    }

    /// Labels and items in braces.
    fn cases(&self, tokens: &'a [Token]) -> Read<'a, Items<SwitchItem>>
        requires { Nests self.now.room (F.pre self.now.inner) (F.post self.now.inner) }
        ensures { Reads (map item_view) (Front self.now.text.now Rule.cases tokens.now)
            self.now.room result }
    {
        let open = expect(self.text, tokens, Punct::OpenBrace)?;
        let items = self.switch_items(open.rest)?;
        let close = expect(self.text, items.rest, Punct::CloseBrace)?;
        Ok(Found {
            tree: items.tree,
            levels: items.levels,
            rest: close.rest,
        })
    }

    /// `switch`, its value and its labels and items.
    pub fn switch(&self, tokens: &'a [Token]) -> Read<'a, Stmt>
        requires nests { Nests self.now.room (F.pre self.now.inner) (F.post self.now.inner) }
        requires few { self.now.room < u32.MAX }
        ensures { Reads stmt_view (By self.now.text.now Rule.statement
            (grammar.statement_as form.Switch) tokens.now) (self.now.room + 1) result }
    {
        let word = next_token(self.text, tokens)?;
        let value = read_condition(self.alloc, self.text, word.rest, self.room)?;
        let cases = self.cases(value.rest)?;
        Ok(Found {
            tree: made::switch(self.alloc, value.tree, cases.tree)?,
            levels: value.levels.max(cases.levels) + 1,
            rest: cases.rest,
        })
    }
}
