//! What stands before an operand, and the `++` and `--` behind it.

ghost use Rattle.std.specs.Prelude.{◌≡◌, ◌≤◌, Some, true};
ghost use Rattle.c_tree.specs.TreeView.{expr_view};
ghost use Rattle.c_grammar.specs.declared.begins.Prefix.TheVariants as prefix;
ghost use Rattle.c_grammar.specs.Operators.{increment_at};
ghost use Rattle.c_grammar.specs.Rules.{Rule};
ghost use Rattle.c_grammar.specs.Grammar.{unary_as, cast_as};
ghost use Rattle.c_grammar.specs.Derivations.{By, Front};
ghost use Rattle.c_grammar.specs.Reads.{Reads, Joins};
ghost use Rattle.c_exprs.specs.Nests.{Nests};

use crate::made;
use crate::nested::{Nest, Reader};
use c_grammar::{
    Found, Prefix, Read, UnaryOperator, cast_at, expect, increment_at, next_token, prefix_at,
    type_name,
};
use c_tokens::{Punct, Token};
use c_tree::{Expr, make};
use int_ops::BinOp;
use std::alloc::Global;

impl<'a, F: Copy + Fn(Global, &'a [u8], &'a [Token], Nest, u32) -> Read<'a, Expr>> Reader<'a, F> {
    /// `++` or `--`, joined to the expression before it.
    #[tactic(auto, using(crate::proofs::Exits::memory_on))]
    fn increment(&self, op: BinOp, left: Found<'a, Expr>) -> Read<'a, Expr>
        requires op { increment_at left.rest.now ≡ Some op }
        requires fits { left.levels ≤ self.now.room }
        ensures { Joins expr_view (λ e n. Front self.now.text.now (Rule.increments e n))
            self.now.room (expr_view left.entry.tree) left.entry.levels left.entry.rest.now result }
    {
        let first = self.deeper(left.levels, left.rest)?;
        let kind = make::after(self.alloc, op, left.tree)?;
        Ok(Found {
            tree: made::at(first.tree, kind),
            levels: first.levels,
            rest: first.rest,
        })
    }

    /// What `++` and `--` join to an expression, from left to right.
    #[tactic(auto, using(crate::proofs::Exits::chain_exit))]
    fn increments(&self, left: Found<'a, Expr>) -> Read<'a, Expr>
        requires fits { left.levels ≤ self.now.room }
        ensures { Reads expr_view (Front self.now.text.now
            (Rule.increments (expr_view left.entry.tree) left.entry.levels) left.entry.rest.now)
            self.now.room result }
    {
        let mut whole = left;
        while let Some(op) = increment_at(whole.rest) {
            whole = self.increment(op, whole)?;
        }
        Ok(whole)
    }

    /// An operand, and what `++` and `--` join to it.
    fn postfix(&self, tokens: &'a [Token]) -> Read<'a, Expr>
        requires nests { Nests self.now.room (F.pre self.now.inner) (F.post self.now.inner) }
        ensures { Reads expr_view (Front self.now.text.now Rule.postfix tokens.now)
            self.now.room result }
    {
        let left = self.operand(tokens)?;
        self.increments(left)
    }

    /// `++` or `--` and a unary expression.
    #[tactic(auto, using(crate::proofs::Exits::memory, crate::proofs::Exits::first_exit))]
    fn before(&self, tokens: &'a [Token], op: BinOp) -> Read<'a, Expr>
        requires nests { Nests self.now.room (F.pre self.now.inner) (F.post self.now.inner) }
        ensures { Reads expr_view (By self.now.text.now Rule.unary
            (unary_as (prefix.Increment op)) tokens.now) self.now.room result }
    {
        let first = next_token(self.text, tokens)?;
        let inner = self.inner(first.rest, Nest::Unary)?;
        let kind = make::before(self.alloc, op, inner.tree)?;
        Ok(Found {
            tree: made::at(first.tree, kind),
            levels: inner.levels + 1,
            rest: inner.rest,
        })
    }

    /// A unary operator and a cast expression.
    #[tactic(auto, using(crate::proofs::Exits::memory, crate::proofs::Exits::first_exit))]
    fn signed(&self, tokens: &'a [Token], operator: UnaryOperator) -> Read<'a, Expr>
        requires nests { Nests self.now.room (F.pre self.now.inner) (F.post self.now.inner) }
        ensures { Reads expr_view (By self.now.text.now Rule.unary
            (unary_as (prefix.Operator operator)) tokens.now) self.now.room result }
    {
        let first = next_token(self.text, tokens)?;
        let inner = self.inner(first.rest, Nest::Cast)?;
        let tree = made::signed(self.alloc, first.tree, operator, inner.tree)?;
        Ok(Found {
            tree,
            levels: inner.levels + 1,
            rest: inner.rest,
        })
    }

    /// A unary expression.
    pub fn unary(&self, tokens: &'a [Token]) -> Read<'a, Expr>
        requires nests { Nests self.now.room (F.pre self.now.inner) (F.post self.now.inner) }
        ensures { Reads expr_view (Front self.now.text.now Rule.unary tokens.now)
            self.now.room result }
    {
        match prefix_at(tokens) {
            Prefix::Increment(op) => self.before(tokens, op),
            Prefix::Operator(operator) => self.signed(tokens, operator),
            Prefix::Absent => self.postfix(tokens),
        }
    }

    /// `( type )` and a cast expression.
    #[tactic(auto, using(crate::proofs::Exits::memory, crate::proofs::Exits::first_exit))]
    fn converted(&self, tokens: &'a [Token]) -> Read<'a, Expr>
        requires nests { Nests self.now.room (F.pre self.now.inner) (F.post self.now.inner) }
        ensures { Reads expr_view (By self.now.text.now Rule.cast (cast_as true) tokens.now)
            self.now.room result }
    {
        let open = next_token(self.text, tokens)?;
        let base = type_name(self.text, open.rest)?;
        let close = expect(self.text, base.rest, Punct::CloseParen)?;
        let inner = self.inner(close.rest, Nest::Cast)?;
        let kind = make::cast(self.alloc, base.tree, inner.tree)?;
        Ok(Found {
            tree: made::at(open.tree, kind),
            levels: inner.levels + 1,
            rest: inner.rest,
        })
    }

    /// A cast expression.
    pub fn cast(&self, tokens: &'a [Token]) -> Read<'a, Expr>
        requires nests { Nests self.now.room (F.pre self.now.inner) (F.post self.now.inner) }
        ensures { Reads expr_view (Front self.now.text.now Rule.cast tokens.now)
            self.now.room result }
    {
        if cast_at(tokens) {
            self.converted(tokens)
        } else {
            self.unary(tokens)
        }
    }
}
