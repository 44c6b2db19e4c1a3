//! Binary operators, the conditional operator, assignments and commas.

ghost use Rattle.std.specs.Prelude.{◌≡◌, ◌<◌, ◌≤◌, ◌+◌, Some, true};
ghost use Rattle.c_tokens.specs.declared.token.Punct.TheVariants as mark;
ghost use Rattle.c_tree.specs.TreeView.{expr_view};
ghost use Rattle.c_grammar.specs.Words.{next_is};
ghost use Rattle.c_grammar.specs.Operators.{operator_at};
ghost use Rattle.c_grammar.specs.Rules.{Rule};
ghost use Rattle.c_grammar.specs.Grammar as grammar;
ghost use Rattle.c_grammar.specs.Derivations.{By, Front};
ghost use Rattle.c_grammar.specs.Reads.{Reads, Joins};
ghost use Rattle.c_exprs.specs.Nests.{Inner, Nests};
ghost use Rattle.c_exprs.specs.Sides.{Deeper, Side, side_view, Sides, sides_view};

use crate::made;
use crate::nested::{Nest, Reader};
use c_grammar::{
    BinaryOperator, Found, ParseFault, Read, assignment_at, is_unary, next_is, next_token,
    operator_at, place_at,
};
use c_tokens::{Punct, Token};
use c_tree::{Expr, make};
use cov_base::Refusal;
use int_ops::BinOp;
use std::alloc::Global;

impl<'a, F: Copy + Fn(Global, &'a [u8], &'a [Token], Nest, u32) -> Read<'a, Expr>> Reader<'a, F> {
    /// The next token, a level deeper than the expression before it, which has so many.
    pub fn deeper(&self, levels: u32, tokens: &'a [Token]) -> Read<'a, Token>
        requires fits { levels ≤ self.now.room }
        ensures { Reads (λ t. t) (Deeper self.now.text.now levels tokens.now) self.now.room result }
    {
        if levels == self.room {
            return Err(Refusal::Refused(ParseFault::TooDeep(place_at(self.text, tokens))));
        }
        let first = next_token(self.text, tokens)?;
        Ok(Found {
            tree: first.tree,
            levels: levels + 1,
            rest: first.rest,
        })
    }

    /// An operator and its right side, behind an expression of so many levels.
    fn side(&self, levels: u32, tokens: &'a [Token], nest: Nest) -> Read<'a, (Token, Expr)>
        requires nests { Nests self.now.room (F.pre self.now.inner) (F.post self.now.inner) }
        requires fits { levels ≤ self.now.room }
        ensures { Reads side_view
            (Side self.now.text.now (Inner self.now.text.now nest) levels tokens.now)
            self.now.room result }
    {
        let first = self.deeper(levels, tokens)?;
        let right = self.inner(first.rest, nest)?;
        Ok(Found {
            levels: first.levels.max(right.levels + 1),
            tree: (first.tree, right.tree),
            rest: right.rest,
        })
    }

    /// `?`, an expression, `:` and a conditional expression, behind an expression of so many
    /// levels.
    fn sides(&self, levels: u32, tokens: &'a [Token]) -> Read<'a, (Token, Expr, Expr)>
        requires nests { Nests self.now.room (F.pre self.now.inner) (F.post self.now.inner) }
        requires fits { levels ≤ self.now.room }
        ensures { Reads sides_view (Sides self.now.text.now levels tokens.now)
            self.now.room result }
    {
        let question = self.deeper(levels, tokens)?;
        let first = self.closed(question.rest, Punct::Colon)?;
        let second = self.inner(first.rest, Nest::Conditional)?;
        Ok(Found {
            levels: question.levels.max(first.levels.max(second.levels) + 1),
            tree: (question.tree, first.tree, second.tree),
            rest: second.rest,
        })
    }

    /// An operator of the precedence above this one, and its right side, joined to the expression
    /// before it.
    #[tactic(auto, using(crate::proofs::Exits::memory_on))]
    fn joined(
        &self,
        precedence: u8,
        operator: BinaryOperator,
        left: Found<'a, Expr>,
    ) -> Read<'a, Expr>
        requires nests { Nests self.now.room (F.pre self.now.inner) (F.post self.now.inner) }
        requires operator { operator_at (precedence + 1) left.rest.now ≡ Some operator }
        requires fits { left.levels ≤ self.now.room }
        ensures { Joins expr_view (λ e n. Front self.now.text.now (Rule.operators precedence e n))
            self.now.room (expr_view left.entry.tree) left.entry.levels left.entry.rest.now result }
    {
        let side = self.side(left.levels, left.rest, Nest::Precedence(precedence))?;
        let (token, right) = side.tree;
        let tree = made::joined(self.alloc, token, operator, left.tree, right)?;
        Ok(Found {
            tree,
            levels: side.levels,
            rest: side.rest,
        })
    }

    /// What the operators of the precedence above this one join to an expression, from left to
    /// right.
    #[tactic(auto, using(crate::proofs::Exits::chain_exit))]
    fn operators(&self, precedence: u8, left: Found<'a, Expr>) -> Read<'a, Expr>
        requires nests { Nests self.now.room (F.pre self.now.inner) (F.post self.now.inner) }
        requires precedence { precedence < 255 }
        requires fits { left.levels ≤ self.now.room }
        ensures { Reads expr_view (Front self.now.text.now
            (Rule.operators precedence (expr_view left.entry.tree) left.entry.levels)
            left.entry.rest.now) self.now.room result }
    {
        let mut whole = left;
        while let Some(operator) = operator_at(precedence + 1, whole.rest) {
            whole = self.joined(precedence, operator, whole)?;
        }
        Ok(whole)
    }

    /// The operators of a precedence and of those that bind tighter; precedence 0 is a cast.
    pub fn precedence(&self, precedence: u8, tokens: &'a [Token]) -> Read<'a, Expr>
        requires nests { Nests self.now.room (F.pre self.now.inner) (F.post self.now.inner) }
        ensures { Reads expr_view (Front self.now.text.now (Rule.precedence precedence) tokens.now)
            self.now.room result }
    {
        let mut whole = self.cast(tokens)?;
        for tighter in 0..precedence {
            whole = self.operators(tighter, whole)?;
        }
        Ok(whole)
    }

    /// `?`, an expression, `:` and a conditional expression behind an expression.
    #[tactic(auto, using(crate::proofs::Exits::memory))]
    fn chosen(&self, test: Found<'a, Expr>) -> Read<'a, Expr>
        requires nests { Nests self.now.room (F.pre self.now.inner) (F.post self.now.inner) }
        requires fits { test.levels ≤ self.now.room }
        ensures { Reads expr_view (By self.now.text.now Rule.conditional
            (grammar.choice_as (expr_view test.entry.tree) test.entry.levels true)
            test.entry.rest.now) self.now.room result }
    {
        let sides = self.sides(test.levels, test.rest)?;
        let (token, first, second) = sides.tree;
        let kind = make::choose(self.alloc, test.tree, first, second)?;
        Ok(Found {
            tree: made::at(token, kind),
            levels: sides.levels,
            rest: sides.rest,
        })
    }

    /// What `?` joins to an expression.
    fn choice(&self, left: Found<'a, Expr>) -> Read<'a, Expr>
        requires nests { Nests self.now.room (F.pre self.now.inner) (F.post self.now.inner) }
        requires fits { left.levels ≤ self.now.room }
        ensures { Reads expr_view (By self.now.text.now Rule.conditional
            (grammar.choice (expr_view left.entry.tree) left.entry.levels) left.entry.rest.now)
            self.now.room result }
    {
        if next_is(left.rest, Punct::Question) {
            self.chosen(left)
        } else {
            Ok(left)
        }
    }

    /// A conditional expression.
    pub fn conditional(&self, tokens: &'a [Token]) -> Read<'a, Expr>
        requires nests { Nests self.now.room (F.pre self.now.inner) (F.post self.now.inner) }
        ensures { Reads expr_view (Front self.now.text.now Rule.conditional tokens.now)
            self.now.room result }
    {
        let left = self.precedence(10, tokens)?;
        self.choice(left)
    }

    /// An assignment operator and a value behind its target.
    #[tactic(auto, using(crate::proofs::Exits::memory))]
    fn target(&self, op: Option<BinOp>, left: Found<'a, Expr>) -> Read<'a, Expr>
        requires nests { Nests self.now.room (F.pre self.now.inner) (F.post self.now.inner) }
        requires fits { left.levels ≤ self.now.room }
        ensures { Reads expr_view (By self.now.text.now Rule.assignment
            (grammar.assigned_as (expr_view left.entry.tree) left.entry.levels (Some op))
            left.entry.rest.now) self.now.room result }
    {
        if !is_unary(&left.tree) {
            return Err(Refusal::Refused(ParseFault::Syntax(place_at(self.text, left.rest))));
        }
        let side = self.side(left.levels, left.rest, Nest::Assignment)?;
        let (token, right) = side.tree;
        let kind = make::assign(self.alloc, op, left.tree, right)?;
        Ok(Found {
            tree: made::at(token, kind),
            levels: side.levels,
            rest: side.rest,
        })
    }

    /// What an assignment operator joins to an expression.
    fn assigned(&self, left: Found<'a, Expr>) -> Read<'a, Expr>
        requires nests { Nests self.now.room (F.pre self.now.inner) (F.post self.now.inner) }
        requires fits { left.levels ≤ self.now.room }
        ensures { Reads expr_view (By self.now.text.now Rule.assignment
            (grammar.assigned (expr_view left.entry.tree) left.entry.levels) left.entry.rest.now)
            self.now.room result }
    {
        match assignment_at(left.rest) {
            Some(op) => self.target(op, left),
            None => Ok(left),
        }
    }

    /// An assignment expression.
    pub fn assignment(&self, tokens: &'a [Token]) -> Read<'a, Expr>
        requires nests { Nests self.now.room (F.pre self.now.inner) (F.post self.now.inner) }
        ensures { Reads expr_view (Front self.now.text.now Rule.assignment tokens.now)
            self.now.room result }
    {
        let left = self.conditional(tokens)?;
        self.assigned(left)
    }

    /// A comma and its right side, joined to the expression before it.
    #[tactic(auto, using(crate::proofs::Exits::memory_on))]
    fn comma(&self, left: Found<'a, Expr>) -> Read<'a, Expr>
        requires nests { Nests self.now.room (F.pre self.now.inner) (F.post self.now.inner) }
        requires comma { next_is mark.Comma left.rest.now ≡ true }
        requires fits { left.levels ≤ self.now.room }
        ensures { Joins expr_view (λ e n. Front self.now.text.now (Rule.commas e n))
            self.now.room (expr_view left.entry.tree) left.entry.levels left.entry.rest.now result }
    {
        let side = self.side(left.levels, left.rest, Nest::Assignment)?;
        let (token, right) = side.tree;
        let kind = make::comma(self.alloc, left.tree, right)?;
        Ok(Found {
            tree: made::at(token, kind),
            levels: side.levels,
            rest: side.rest,
        })
    }

    /// What commas join to an expression, from left to right.
    #[tactic(auto, using(crate::proofs::Exits::chain_exit))]
    fn commas(&self, left: Found<'a, Expr>) -> Read<'a, Expr>
        requires nests { Nests self.now.room (F.pre self.now.inner) (F.post self.now.inner) }
        requires fits { left.levels ≤ self.now.room }
        ensures { Reads expr_view (Front self.now.text.now
            (Rule.commas (expr_view left.entry.tree) left.entry.levels) left.entry.rest.now)
            self.now.room result }
    {
        let mut whole = left;
        while next_is(whole.rest, Punct::Comma) {
            whole = self.comma(whole)?;
        }
        Ok(whole)
    }

    /// An expression.
    pub fn expression(&self, tokens: &'a [Token]) -> Read<'a, Expr>
        requires nests { Nests self.now.room (F.pre self.now.inner) (F.post self.now.inner) }
        ensures { Reads expr_view (Front self.now.text.now Rule.expression tokens.now)
            self.now.room result }
    {
        let left = self.assignment(tokens)?;
        self.commas(left)
    }
}
