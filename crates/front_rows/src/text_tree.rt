//! The tree of a text.

ghost use Rattle.std.specs.Prelude.{◌≤◌, length, IfOk, IfErr};
ghost use Rattle.c_tree.specs.TreeView.{tree_view};
ghost use Rattle.front_rows.specs.TextTree.{IsTreeOf, RefusesText};

use c_parser::{ParseFault, parse};
use c_tokens::{LexFault, scan};
use c_tree::Tree;
use cov_base::{Refusal, SOURCE_LIMIT};
use sqlite_items::Items;
use std::alloc::Global;

/// Why a text has no tree.
#[derive(Clone, Copy, Debug, PartialEq, Eq)]
pub enum TextFault {
    /// It has no tokens.
    Lex(LexFault),
    /// Its tokens have no tree.
    Parse(ParseFault),
}

/// The tree of a text of at most `SOURCE_LIMIT` bytes. Its refusal is `Lex` where a fault stands in
/// the text, `Parse` where no tree of at most 256 levels derives its tokens, or want of memory.
#[tactic(auto, using(crate::proofs::TextTreeLaws::is_tree, crate::proofs::TextTreeLaws::not_split, crate::proofs::TextTreeLaws::memory))]
pub fn tree_of_text(alloc: Global, text: &[u8]) -> Result<Tree, Refusal<TextFault>>
    requires { length text.now ≤ SOURCE_LIMIT }
    ensures ok { IfOk result (λ tree. IsTreeOf text.now (tree_view tree)) }
    ensures err { IfErr result (λ e. RefusesText text.now e) }
{
    let tokens = match scan(alloc, text) {
        Ok(tokens) => tokens,
        Err(Refusal::Refused(fault)) => return Err(Refusal::Refused(TextFault::Lex(fault))),
        Err(Refusal::NoMemory) => return Err(Refusal::NoMemory),
    };
    match parse(alloc, text, &tokens) {
        Ok(tree) => Ok(tree),
        Err(Refusal::Refused(fault)) => Err(Refusal::Refused(TextFault::Parse(fault))),
        Err(Refusal::NoMemory) => Err(Refusal::NoMemory),
    }
}
