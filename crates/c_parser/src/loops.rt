//! Readers of `if` and of the loops.

ghost use Rattle.std.specs.Prelude.{◌+◌, ◌<◌, option_map};
ghost use Rattle.c_tree.specs.TreeView.{other_of, stmt_view};
ghost use Rattle.c_grammar.specs.declared.begins.StmtForm.TheVariants as form;
ghost use Rattle.c_grammar.specs.Rules.{Rule};
ghost use Rattle.c_grammar.specs.Forms.{else_at};
ghost use Rattle.c_grammar.specs.Grammar as grammar;
ghost use Rattle.c_grammar.specs.Grammar.{Grammar};
ghost use Rattle.c_grammar.specs.Derivations.{By, Front};
ghost use Rattle.c_grammar.specs.Reads.{Reads};
ghost use Rattle.c_parser.specs.Nests.{Nests};

use crate::conditions::{read_condition, read_until};
use crate::for_heads::read_for_head;
use crate::made;
use crate::statements::Statements;
use c_grammar::{Found, Read, else_at, next_token};
use c_tokens::Token;
use c_tree::Stmt;
use std::alloc::Global;

/// The branches of an `if`, of which the second may be left out.
#[derive(Drop)]
pub struct Branches {
    pub first: Stmt,
    pub other: Option<Stmt>,
}

impl<'a, F: Copy + Fn(Global, &'a [u8], &'a [Token], u32) -> Read<'a, Stmt>> Statements<'a, F> {
    /// What `else` adds to the first branch.
    fn alternative(&self, first: Stmt, tokens: &'a [Token]) -> Read<'a, Branches>
        requires { Nests self.now.room (F.pre self.now.inner) (F.post self.now.inner) }
        ensures { Reads (λ b. (stmt_view b.first, other_of (option_map stmt_view b.other)))
            (By self.now.text.now Rule.branches
            (Grammar.look (λ ts. grammar.alternative_as (stmt_view first) (else_at ts)))
            tokens.now) self.now.room result }
    {
        if !else_at(tokens) {
            return Ok(Found {
                tree: Branches { first, other: None },
                levels: 0,
                rest: tokens,
            });
        }
        let word = next_token(self.text, tokens)?;
        let other = self.inner(word.rest)?;
        Ok(Found {
            tree: Branches {
                first,
                other: Some(other.tree),
            },
            levels: other.levels,
            rest: other.rest,
        })
    }

    /// A statement, and what `else` adds: it joins the nearest `if`.
    fn branches(&self, tokens: &'a [Token]) -> Read<'a, Branches>
        requires { Nests self.now.room (F.pre self.now.inner) (F.post self.now.inner) }
        ensures { Reads (λ b. (stmt_view b.first, other_of (option_map stmt_view b.other)))
            (Front self.now.text.now Rule.branches tokens.now) self.now.room result }
    {
        let first = self.inner(tokens)?;
        let both = self.alternative(first.tree, first.rest)?;
        Ok(Found {
            tree: both.tree,
            levels: first.levels.max(both.levels),
            rest: both.rest,
        })
    }

    /// `if`, its condition and its branches.
    pub fn if_(&self, tokens: &'a [Token]) -> Read<'a, Stmt>
        requires nests { Nests self.now.room (F.pre self.now.inner) (F.post self.now.inner) }
        requires few { self.now.room < u32.MAX }
        ensures { Reads stmt_view (By self.now.text.now Rule.statement
            (grammar.statement_as form.If) tokens.now) (self.now.room + 1) result }
    {
        let word = next_token(self.text, tokens)?;
        let test = read_condition(self.alloc, self.text, word.rest, self.room)?;
        let both = self.branches(test.rest)?;
        Ok(Found {
            tree: made::if_(self.alloc, test.tree, both.tree.first, both.tree.other)?,
            levels: test.levels.max(both.levels) + 1,
            rest: both.rest,
        })
    }

    /// `while`, its condition and its body.
    pub fn while_(&self, tokens: &'a [Token]) -> Read<'a, Stmt>
        requires nests { Nests self.now.room (F.pre self.now.inner) (F.post self.now.inner) }
        requires few { self.now.room < u32.MAX }
        ensures { Reads stmt_view (By self.now.text.now Rule.statement
            (grammar.statement_as form.While) tokens.now) (self.now.room + 1) result }
    {
        let word = next_token(self.text, tokens)?;
        let test = read_condition(self.alloc, self.text, word.rest, self.room)?;
        let body = self.inner(test.rest)?;
        Ok(Found {
            tree: made::while_(self.alloc, test.tree, body.tree)?,
            levels: test.levels.max(body.levels) + 1,
            rest: body.rest,
        })
    }

    /// `do`, its body and its condition.
    pub fn do_(&self, tokens: &'a [Token]) -> Read<'a, Stmt>
        requires nests { Nests self.now.room (F.pre self.now.inner) (F.post self.now.inner) }
        requires few { self.now.room < u32.MAX }
        ensures { Reads stmt_view (By self.now.text.now Rule.statement
            (grammar.statement_as form.Do) tokens.now) (self.now.room + 1) result }
    {
        let word = next_token(self.text, tokens)?;
        let body = self.inner(word.rest)?;
        let until = read_until(self.alloc, self.text, body.rest, self.room)?;
        Ok(Found {
            tree: made::do_while(self.alloc, body.tree, until.tree.test, until.tree.line)?,
            levels: body.levels.max(until.levels) + 1,
            rest: until.rest,
        })
    }

    /// `for`, what stands in its parentheses and its body.
    pub fn for_(&self, tokens: &'a [Token]) -> Read<'a, Stmt>
        requires nests { Nests self.now.room (F.pre self.now.inner) (F.post self.now.inner) }
        requires few { self.now.room < u32.MAX }
        ensures { Reads stmt_view (By self.now.text.now Rule.statement
            (grammar.statement_as form.For) tokens.now) (self.now.room + 1) result }
    {
        let word = next_token(self.text, tokens)?;
        let head = read_for_head(self.alloc, self.text, word.rest, self.room)?;
        let body = self.inner(head.rest)?;
        Ok(Found {
            tree: made::for_(self.alloc, head.tree, body.tree)?,
            levels: head.levels.max(body.levels) + 1,
            rest: body.rest,
        })
    }
}
