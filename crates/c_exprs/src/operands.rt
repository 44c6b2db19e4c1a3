//! Operands: what operators join.

ghost use Rattle.std.specs.Prelude.{◌-◌, map};
ghost use Rattle.c_tree.specs.TreeView.{expr_view};
ghost use Rattle.c_grammar.specs.declared.begins.Operand.TheVariants as first;
ghost use Rattle.c_grammar.specs.Rules.{Rule};
ghost use Rattle.c_grammar.specs.Grammar.{operand_as};
ghost use Rattle.c_grammar.specs.Derivations.{By, Front};
ghost use Rattle.c_grammar.specs.Reads.{Reads};
ghost use Rattle.c_exprs.specs.Nests.{Nests};

use crate::lists::read_list;
use crate::made;
use crate::nested::{Nest, Reader};
use c_grammar::{
    Following, Found, Operand, ParseFault, Read, close, next_is, next_token, operand_at, place_at,
};
use c_tokens::{Punct, Token};
use c_tree::{Expr, make};
use cov_base::Refusal;
use int_ops::IntType;
use sqlite_items::Items;
use std::alloc::Global;

impl<'a, F: Copy + Fn(Global, &'a [u8], &'a [Token], Nest, u32) -> Read<'a, Expr>> Reader<'a, F> {
    /// A name.
    #[tactic(auto, using(crate::proofs::Exits::memory, crate::proofs::Exits::first_exit))]
    fn name(&self, tokens: &'a [Token]) -> Read<'a, Expr>
        requires nests { Nests self.now.room (F.pre self.now.inner) (F.post self.now.inner) }
        ensures { Reads expr_view (By self.now.text.now Rule.operand
            (operand_as self.now.text.now first.Name) tokens.now) self.now.room result }
    {
        let name = next_token(self.text, tokens)?;
        let tree = made::name(self.alloc, self.text, name.tree)?;
        Ok(Found {
            tree,
            levels: 1,
            rest: name.rest,
        })
    }

    /// A number of this type, or a character.
    #[tactic(auto, using(crate::proofs::Exits::first_exit))]
    fn number(&self, tokens: &'a [Token], number: i128, number_type: IntType) -> Read<'a, Expr>
        requires nests { Nests self.now.room (F.pre self.now.inner) (F.post self.now.inner) }
        ensures { Reads expr_view (By self.now.text.now Rule.operand
            (operand_as self.now.text.now (first.Number number number_type)) tokens.now)
            self.now.room result }
    {
        let first = next_token(self.text, tokens)?;
        Ok(Found {
            tree: made::number(first.tree, number, number_type),
            levels: 1,
            rest: first.rest,
        })
    }

    /// `EOF`
    #[tactic(auto, using(crate::proofs::Exits::first_exit))]
    fn eof_name(&self, tokens: &'a [Token]) -> Read<'a, Expr>
        requires nests { Nests self.now.room (F.pre self.now.inner) (F.post self.now.inner) }
        ensures { Reads expr_view (By self.now.text.now Rule.operand
            (operand_as self.now.text.now first.EofName) tokens.now) self.now.room result }
    {
        let first = next_token(self.text, tokens)?;
        Ok(Found {
            tree: made::eof_name(first.tree),
            levels: 1,
            rest: first.rest,
        })
    }

    /// An expression inside, and this mark behind it.
    pub fn closed(&self, tokens: &'a [Token], mark: Punct) -> Read<'a, Expr>
        requires nests { Nests self.now.room (F.pre self.now.inner) (F.post self.now.inner) }
        ensures { Reads expr_view (Front self.now.text.now (Rule.closed mark) tokens.now)
            (self.now.room - 1) result }
    {
        let inner = self.inner(tokens, Nest::Expression)?;
        close(self.text, inner, mark)
    }

    /// `( expr )`
    #[tactic(auto, using(crate::proofs::Exits::memory, crate::proofs::Exits::first_exit))]
    fn paren(&self, tokens: &'a [Token]) -> Read<'a, Expr>
        requires nests { Nests self.now.room (F.pre self.now.inner) (F.post self.now.inner) }
        ensures { Reads expr_view (By self.now.text.now Rule.operand
            (operand_as self.now.text.now first.Paren) tokens.now) self.now.room result }
    {
        let open = next_token(self.text, tokens)?;
        let inner = self.closed(open.rest, Punct::CloseParen)?;
        let kind = make::paren(self.alloc, inner.tree)?;
        Ok(Found {
            tree: made::at(open.tree, kind),
            levels: inner.levels + 1,
            rest: inner.rest,
        })
    }

    /// A name, `[`, an expression and `]`.
    #[tactic(auto, using(crate::proofs::Exits::memory, crate::proofs::Exits::first_exit))]
    fn index(&self, tokens: &'a [Token]) -> Read<'a, Expr>
        requires nests { Nests self.now.room (F.pre self.now.inner) (F.post self.now.inner) }
        ensures { Reads expr_view (By self.now.text.now Rule.operand
            (operand_as self.now.text.now first.Index) tokens.now) self.now.room result }
    {
        let array = next_token(self.text, tokens)?;
        let bracket = next_token(self.text, array.rest)?;
        let inner = self.closed(bracket.rest, Punct::CloseBracket)?;
        let tree = made::index(self.alloc, self.text, array.tree, bracket.tree, inner.tree)?;
        Ok(Found {
            tree,
            levels: inner.levels + 1,
            rest: inner.rest,
        })
    }

    /// The arguments of a call, up to `)`.
    fn arguments(&self, tokens: &'a [Token]) -> Read<'a, Items<Expr>>
        requires nests { Nests self.now.room (F.pre self.now.inner) (F.post self.now.inner) }
        ensures { Reads (map expr_view) (Front self.now.text.now Rule.arguments tokens.now)
            (self.now.room - 1) result }
    {
        if next_is(tokens, Punct::CloseParen) {
            return Ok(Found {
                tree: Items::new(self.alloc),
                levels: 0,
                rest: tokens,
            });
        }
        read_list(
            self.alloc,
            self.text,
            Following::Comma,
            tokens,
            Nest::Assignment,
            self.room - 1,
            self.inner,
        )
    }

    /// A name, `(`, arguments and `)`.
    #[tactic(auto, using(crate::proofs::Exits::memory, crate::proofs::Exits::first_exit))]
    fn call(&self, tokens: &'a [Token]) -> Read<'a, Expr>
        requires nests { Nests self.now.room (F.pre self.now.inner) (F.post self.now.inner) }
        ensures { Reads expr_view (By self.now.text.now Rule.operand
            (operand_as self.now.text.now first.Call) tokens.now) self.now.room result }
    {
        let name = next_token(self.text, tokens)?;
        let open = next_token(self.text, name.rest)?;
        let args = self.arguments(open.rest)?;
        let whole = close(self.text, args, Punct::CloseParen)?;
        let tree = made::call(self.alloc, self.text, name.tree, whole.tree)?;
        Ok(Found {
            tree,
            levels: whole.levels + 1,
            rest: whole.rest,
        })
    }

    /// An operand.
    pub fn operand(&self, tokens: &'a [Token]) -> Read<'a, Expr>
        requires nests { Nests self.now.room (F.pre self.now.inner) (F.post self.now.inner) }
        ensures { Reads expr_view (Front self.now.text.now Rule.operand tokens.now)
            self.now.room result }
    {
        match operand_at(tokens) {
            Operand::Name => self.name(tokens),
            Operand::Number(number, number_type) => self.number(tokens, number, number_type),
            Operand::EofName => self.eof_name(tokens),
            Operand::Paren => self.paren(tokens),
            Operand::Call => self.call(tokens),
            Operand::Index => self.index(tokens),
            Operand::Absent => {
                Err(Refusal::Refused(ParseFault::Syntax(place_at(self.text, tokens))))
            }
        }
    }
}
