//! Readers of statements and of the items of blocks.

ghost use Rattle.std.specs.Prelude.{◌+◌, ◌<◌, map, true};
ghost use Rattle.c_tree.specs.TreeView.{stmt_view};
ghost use Rattle.c_grammar.specs.declared.begins.StmtForm.TheVariants as form;
ghost use Rattle.c_grammar.specs.Rules.{Listed, Rule};
ghost use Rattle.c_grammar.specs.Grammar as grammar;
ghost use Rattle.c_grammar.specs.Derivations.{By, Front};
ghost use Rattle.c_grammar.specs.Reads.{Reads};
ghost use Rattle.c_parser.specs.Nests.{Nests};

use crate::declarations::read_declaration;
use crate::made;
use c_exprs::{read_ended, read_more};
use c_grammar::{
    Following, Found, ParseFault, Read, StmtForm, expect, form_at, next_token, place_at, type_at,
};
use c_tokens::{Punct, Token};
use c_tree::{Stmt, make_stmt};
use cov_base::Refusal;
use sqlite_items::Items;
use std::alloc::Global;

/// Reads statements whose parts have at most `room` levels. The function that it holds reads the
/// statements inside them; so each form is proved by itself.
#[derive(Clone, Copy)]
pub struct Statements<'a, F> {
    pub alloc: Global,
    pub text: &'a [u8],
    pub room: u32,
    pub inner: F,
}

/// A declaration as an item.
fn read_variables_item<'a>(
    alloc: Global,
    text: &'a [u8],
    tokens: &'a [Token],
    room: u32,
) -> Read<'a, Stmt>
    ensures { Reads stmt_view (By text.now Rule.item (grammar.item_as true) tokens.now) room
        result }
{
    if room == 0 {
        return Err(Refusal::Refused(ParseFault::TooDeep(place_at(text, tokens))));
    }
    let variables = read_declaration(alloc, text, tokens, room - 1)?;
    Ok(Found {
        tree: make_stmt::vars(variables.tree),
        levels: variables.levels + 1,
        rest: variables.rest,
    })
}

/// A declaration, or a statement that the function value reads.
pub fn read_item<'a, F: Copy + Fn(Global, &'a [u8], &'a [Token], u32) -> Read<'a, Stmt>>(
    alloc: Global,
    text: &'a [u8],
    tokens: &'a [Token],
    inner: F,
    room: u32,
) -> Read<'a, Stmt>
    requires { Nests room (F.pre inner) (F.post inner) }
    ensures { Reads stmt_view (Front text.now Rule.item tokens.now) room result }
{
    if type_at(tokens) {
        read_variables_item(alloc, text, tokens, room)
    } else {
        read_inner(alloc, text, tokens, inner, room)
    }
}

/// A statement that the function value reads.
fn read_inner<'a, F: Copy + Fn(Global, &'a [u8], &'a [Token], u32) -> Read<'a, Stmt>>(
    alloc: Global,
    text: &'a [u8],
    tokens: &'a [Token],
    inner: F,
    room: u32,
) -> Read<'a, Stmt>
    requires { Nests room (F.pre inner) (F.post inner) }
    ensures { Reads stmt_view (Front text.now Rule.statement tokens.now) room result }
{
    inner(alloc, text, tokens, room)
}

impl<'a, F: Copy + Fn(Global, &'a [u8], &'a [Token], u32) -> Read<'a, Stmt>> Statements<'a, F> {
    /// A statement that stands inside a statement.
    pub fn inner(&self, tokens: &'a [Token]) -> Read<'a, Stmt>
        requires { Nests self.now.room (F.pre self.now.inner) (F.post self.now.inner) }
        ensures { Reads stmt_view (Front self.now.text.now Rule.statement tokens.now)
            self.now.room result }
    {
        read_inner(self.alloc, self.text, tokens, self.inner, self.room)
    }

    /// The items of a block, up to its `}`.
    pub fn items(&self, tokens: &'a [Token]) -> Read<'a, Items<Stmt>>
        requires { Nests self.now.room (F.pre self.now.inner) (F.post self.now.inner) }
        ensures { Reads (map stmt_view)
            (Front self.now.text.now (Rule.more Listed.items) tokens.now) self.now.room result }
    {
        read_more(
            self.alloc,
            self.text,
            Following::UpToBrace,
            tokens,
            self.inner,
            self.room,
            read_item,
        )
    }

    /// A block.
    fn block(&self, tokens: &'a [Token]) -> Read<'a, Stmt>
        requires nests { Nests self.now.room (F.pre self.now.inner) (F.post self.now.inner) }
        requires few { self.now.room < u32.MAX }
        ensures { Reads stmt_view (By self.now.text.now Rule.statement
            (grammar.statement_as form.Block) tokens.now) (self.now.room + 1) result }
    {
        let open = next_token(self.text, tokens)?;
        let items = self.items(open.rest)?;
        let close = expect(self.text, items.rest, Punct::CloseBrace)?;
        Ok(Found {
            tree: make_stmt::block(items.tree),
            levels: items.levels + 1,
            rest: close.rest,
        })
    }

    /// An expression statement, or an empty one.
    fn value(&self, tokens: &'a [Token]) -> Read<'a, Stmt>
        requires { self.now.room < u32.MAX }
        ensures { Reads stmt_view (By self.now.text.now Rule.statement
            (grammar.statement_as form.Value) tokens.now) (self.now.room + 1) result }
    {
        let ended = read_ended(self.alloc, self.text, tokens, Punct::Semicolon, self.room)?;
        Ok(Found {
            tree: made::value(ended.tree),
            levels: ended.levels + 1,
            rest: ended.rest,
        })
    }

    /// `return`, an expression or none, and `;`.
    fn return_(&self, tokens: &'a [Token]) -> Read<'a, Stmt>
        requires { self.now.room < u32.MAX }
        ensures { Reads stmt_view (By self.now.text.now Rule.statement
            (grammar.statement_as form.Return) tokens.now) (self.now.room + 1) result }
    {
        let word = next_token(self.text, tokens)?;
        let ended = read_ended(
            self.alloc,
            self.text,
            word.rest,
            Punct::Semicolon,
            self.room,
        )?;
        Ok(Found {
            tree: made::return_(word.tree, ended.tree),
            levels: ended.levels + 1,
            rest: ended.rest,
        })
    }

    /// `break;`
    fn break_(&self, tokens: &'a [Token]) -> Read<'a, Stmt>
        ensures { Reads stmt_view (By self.now.text.now Rule.statement
            (grammar.statement_as form.Break) tokens.now) (self.now.room + 1) result }
    {
        let word = next_token(self.text, tokens)?;
        let close = expect(self.text, word.rest, Punct::Semicolon)?;
        Ok(Found {
            tree: made::break_(word.tree),
            levels: 1,
            rest: close.rest,
        })
    }

    /// `continue;`
    fn continue_(&self, tokens: &'a [Token]) -> Read<'a, Stmt>
        ensures { Reads stmt_view (By self.now.text.now Rule.statement
            (grammar.statement_as form.Continue) tokens.now) (self.now.room + 1) result }
    {
        let word = next_token(self.text, tokens)?;
        let close = expect(self.text, word.rest, Punct::Semicolon)?;
        Ok(Found {
            tree: made::continue_(word.tree),
            levels: 1,
            rest: close.rest,
        })
    }

    /// A statement.
    pub fn statement(&self, tokens: &'a [Token]) -> Read<'a, Stmt>
        requires nests { Nests self.now.room (F.pre self.now.inner) (F.post self.now.inner) }
        requires few { self.now.room < u32.MAX }
        ensures { Reads stmt_view (Front self.now.text.now Rule.statement tokens.now)
            (self.now.room + 1) result }
    {
        match form_at(tokens) {
            StmtForm::Block => self.block(tokens),
            StmtForm::If => self.if_(tokens),
            StmtForm::While => self.while_(tokens),
            StmtForm::Do => self.do_(tokens),
            StmtForm::For => self.for_(tokens),
            StmtForm::Switch => self.switch(tokens),
            StmtForm::Break => self.break_(tokens),
            StmtForm::Continue => self.continue_(tokens),
            StmtForm::Return => self.return_(tokens),
            StmtForm::Value => self.value(tokens),
        }
    }
}

/// A statement.
pub fn read_statement<'a>(
    alloc: Global,
    text: &'a [u8],
    tokens: &'a [Token],
    room: u32,
) -> Read<'a, Stmt>
    ensures { Reads stmt_view (Front text.now Rule.statement tokens.now) room result }
{
    if room == 0 {
        return Err(Refusal::Refused(ParseFault::TooDeep(place_at(text, tokens))));
    }
    let statements = Statements {
        alloc,
        text,
        room: room - 1,
        inner: read_statement,
    };
    statements.statement(tokens)
}

/// The items of a function's block, up to its `}`.
pub fn read_items<'a>(
    alloc: Global,
    text: &'a [u8],
    tokens: &'a [Token],
    room: u32,
) -> Read<'a, Items<Stmt>>
    ensures { Reads (map stmt_view) (Front text.now (Rule.more Listed.items) tokens.now) room
        result }
{
    let statements = Statements {
        alloc,
        text,
        room,
        inner: read_statement,
    };
    statements.items(tokens)
}
