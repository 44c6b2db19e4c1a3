//! Tokens to a tree.

ghost use Rattle.std.specs.Prelude.{◌≡◌, ◌≤◌, length, IfOk, IfErr};
ghost use Rattle.cov_base.specs.Limits.{level_limit, source_limit};
ghost use Rattle.cov_base.specs.declared.refusal.Refusal.TheVariants as refusal;
ghost use Rattle.c_tokens.specs.Tokens.{Splits};
ghost use Rattle.c_tree.specs.Formed.{Formed};
ghost use Rattle.c_tree.specs.TreeView.{tree_view};
ghost use Rattle.c_grammar.specs.Rules.{Listed, Rule};
ghost use Rattle.c_grammar.specs.Derivations.{end_from, Front};
ghost use Rattle.c_grammar.specs.Reads.{Refuses};
ghost use Rattle.c_syntax.specs.Syntax.{IsSource};
ghost use Rattle.c_parser.specs.Sources.{Parses, ParseRefuses};

use crate::sources::read_outers;
use c_grammar::ParseFault;
use c_tokens::Token;
use c_tree::Tree;
use cov_base::{LEVEL_LIMIT, Refusal};
use std::alloc::Global;

/// The end of the last token, or 0 where there is none.
fn end_of(tokens: &[Token]) -> u32
    ensures { result ≡ end_from 0 tokens.now }
{
    let mut end = 0;
    for token in tokens {
        end = token.end;
    }
    end
}

/// What a fault of the parts of a source says of the source. Tokens have no deeper tree than there
/// are tokens, so few tokens that have none within the bound have none at all. The place of
/// `TooDeep` lies behind the start of the 257th token.
#[tactic(auto, using(crate::proofs::ParseLaws::no_tree, crate::proofs::ParseLaws::too_few))]
fn told_fault(text: &[u8], tokens: &[Token], fault: ParseFault) -> ParseFault
    requires splits { Splits text.now tokens.now }
    requires refused { Refuses (Front text.now (Rule.more Listed.outers) tokens.now) level_limit
        (refusal.Refused fault) }
    ensures { ParseRefuses text.now tokens.now (refusal.Refused result) }
{
    match fault {
        ParseFault::TooDeep(place) => match tokens.get(LEVEL_LIMIT as usize) {
            Some(token) => ParseFault::TooDeep(place.max(token.end)),
            None => ParseFault::Syntax(place),
        },
        ParseFault::Syntax(place) => ParseFault::Syntax(place),
    }
}

/// What a refusal of the parts of a source says of the source.
#[tactic(auto, using(crate::proofs::ParseLaws::memory))]
fn told(text: &[u8], tokens: &[Token], refusal: Refusal<ParseFault>) -> Refusal<ParseFault>
    requires splits { Splits text.now tokens.now }
    requires refused { Refuses (Front text.now (Rule.more Listed.outers) tokens.now) level_limit
        refusal }
    ensures { ParseRefuses text.now tokens.now result }
{
    match refusal {
        Refusal::Refused(fault) => Refusal::Refused(told_fault(text, tokens, fault)),
        Refusal::NoMemory => Refusal::NoMemory,
    }
}

/// The tree of a text's tokens, of at most 256 levels.
///
/// # Errors
///
/// `Syntax` where no tree derives the tokens, with the start of the token at which the grammar
/// stopped, or the length of the text where the tokens end too early. `TooDeep` where none of at
/// most 256 levels does; more than 256 tokens begin before its place. `NoMemory` where memory ran
/// out.
pub fn parse(alloc: Global, text: &[u8], tokens: &[Token]) -> Result<Tree, Refusal<ParseFault>>
    requires { Splits text.now tokens.now }
    ensures ok { IfOk result (λ tree. Parses text.now tokens.now (tree_view tree)) }
    ensures err { IfErr result (λ e. ParseRefuses text.now tokens.now e) }

    // By the grammar of C17, without look-ahead, the tokens are a source with this tree.
    ensures source { IfOk result (λ tree. IsSource text.now tokens.now (tree_view tree)) }

    // The tree of a source is formed: its lines are those of a source, its numbers lie in their
    // types, and what the grammar asks to be there is there.
    ensures formed { IfOk result (λ tree. length text.now ≤ source_limit
        → Formed (tree_view tree)) }
{
    let outers = match read_outers(alloc, text, tokens, LEVEL_LIMIT) {
        Ok(outers) => outers,
        Err(refusal) => return Err(told(text, tokens, refusal)),
    };
    Ok(Tree {
        outers: outers.tree,
        end: end_of(tokens),
    })
}
