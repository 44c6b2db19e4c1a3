//! Expressions inside expressions: what is read with a level less.

ghost use Rattle.std.specs.Prelude.{◌-◌};
ghost use Rattle.c_tree.specs.TreeView.{expr_view};
ghost use Rattle.c_grammar.specs.Reads.{Reads};
ghost use Rattle.c_exprs.specs.Nests.{Inner, Nests};

use c_grammar::{ParseFault, Read, place_at};
use c_tokens::Token;
use c_tree::Expr;
use cov_base::Refusal;
use std::alloc::Global;

/// Which expression stands inside another.
#[derive(Clone, Copy, Debug, PartialEq, Eq)]
pub enum Nest {
    Unary,
    Cast,
    /// The operators of this precedence and of those that bind tighter; 0 is a cast.
    Precedence(u8),
    Conditional,
    Assignment,
    Expression,
}

/// Reads expressions of at most `room` levels. The function value that it holds reads what stands
/// inside them, with a level less; so each rule is proved by itself.
#[derive(Clone, Copy)]
pub struct Reader<'a, F> {
    pub alloc: Global,
    pub text: &'a [u8],
    pub room: u32,
    pub inner: F,
}

impl<'a, F: Copy + Fn(Global, &'a [u8], &'a [Token], Nest, u32) -> Read<'a, Expr>> Reader<'a, F> {
    /// An expression that stands inside another.
    pub fn inner(&self, tokens: &'a [Token], nest: Nest) -> Read<'a, Expr>
        requires nests { Nests self.now.room (F.pre self.now.inner) (F.post self.now.inner) }
        ensures { Reads expr_view (Inner self.now.text.now nest tokens.now) (self.now.room - 1)
            result }
    {
        (self.inner)(self.alloc, self.text, tokens, nest, self.room - 1)
    }
}

/// An expression that stands inside another, of at most `room` levels.
pub fn read_inner<'a>(
    alloc: Global,
    text: &'a [u8],
    tokens: &'a [Token],
    nest: Nest,
    room: u32,
) -> Read<'a, Expr>
    ensures { Reads expr_view (Inner text.now nest tokens.now) room result }
{
    if room == 0 {
        return Err(Refusal::Refused(ParseFault::TooDeep(place_at(text, tokens))));
    }
    let reader = Reader {
        alloc,
        text,
        room,
        inner: read_inner,
    };
    match nest {
        Nest::Unary => reader.unary(tokens),
        Nest::Cast => reader.cast(tokens),
        Nest::Precedence(precedence) => reader.precedence(precedence, tokens),
        Nest::Conditional => reader.conditional(tokens),
        Nest::Assignment => reader.assignment(tokens),
        Nest::Expression => reader.expression(tokens),
    }
}
