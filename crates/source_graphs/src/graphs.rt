//! The graphs of a text.

ghost use Rattle.std.specs.Prelude.{◌≤◌, length, IfOk, IfErr};
ghost use Rattle.c_tree.specs.TreeView.{tree_view};
ghost use Rattle.c_tree.specs.TypedView.{typed_view};
ghost use Rattle.source_graphs.specs.SourceGraphs.{IsTreeOf, IsSourceOf, GraphsOf, RefusesSource};

use c_grammar::ParseFault;
use c_lower::{LowerFault, lower};
use c_parser::parse;
use c_tokens::{LexFault, scan};
use c_tree::{Tree, Typed};
use c_types::check;
use c_typing::TypeFault;
use cov_base::{Refusal, SOURCE_LIMIT};
use fake_arcs::{SizeFault, prune};
use flow_graph::GraphUnit;
use prune_agrees::agreement;
use std::alloc::Global;

/// Why a text isn't accepted.
#[derive(Clone, Copy, Debug, PartialEq, Eq)]
pub enum SourceFault {
    /// It has no tokens.
    Lex(LexFault),
    /// Its tokens have no tree of at most 256 levels.
    Parse(ParseFault),
    /// A fault of names or types stands in its tree.
    Types(TypeFault),
    /// Its globals or a frame are too large.
    Lower(LowerFault),
    /// Its graphs are too large.
    Size(SizeFault),
}

/// The tree of a text.
#[tactic(auto, using(crate::proofs::GraphLaws::not_split, crate::proofs::GraphLaws::memory))]
fn tree_of(alloc: Global, text: &[u8]) -> Result<Tree, Refusal<SourceFault>>
    requires { length text.now ≤ SOURCE_LIMIT }
    ensures ok { IfOk result (λ tree. IsTreeOf text.now (tree_view tree)) }
    ensures err { IfErr result (λ e. RefusesSource text.now e) }
{
    let tokens = match scan(alloc, text) {
        Ok(tokens) => tokens,
        Err(Refusal::Refused(fault)) => return Err(Refusal::Refused(SourceFault::Lex(fault))),
        Err(Refusal::NoMemory) => return Err(Refusal::NoMemory),
    };
    match parse(alloc, text, &tokens) {
        Ok(tree) => Ok(tree),
        Err(Refusal::Refused(fault)) => Err(Refusal::Refused(SourceFault::Parse(fault))),
        Err(Refusal::NoMemory) => Err(Refusal::NoMemory),
    }
}

/// The typed form of a text.
#[tactic(auto, using(crate::proofs::GraphLaws::memory))]
fn source_of(alloc: Global, text: &[u8]) -> Result<Typed, Refusal<SourceFault>>
    requires { length text.now ≤ SOURCE_LIMIT }
    ensures ok { IfOk result (λ typed. IsSourceOf text.now (typed_view typed)) }
    ensures err { IfErr result (λ e. RefusesSource text.now e) }
{
    let tree = tree_of(alloc, text)?;
    match check(alloc, &tree) {
        Ok(typed) => Ok(typed),
        Err(Refusal::Refused(fault)) => Err(Refusal::Refused(SourceFault::Types(fault))),
        Err(Refusal::NoMemory) => Err(Refusal::NoMemory),
    }
}

/// The pruned graphs of a text, which on every input and with every number of turns do what the
/// text means as a C source.
///
/// # Errors
///
/// The fault that stands, in the order of the steps: of the text, of its tokens, of its tree's
/// names and types, and of sizes. `NoMemory` where memory ran out.
#[tactic(auto, using(crate::proofs::GraphLaws::not_lowered, crate::proofs::GraphLaws::not_pruned, crate::proofs::GraphLaws::are_graphs, crate::proofs::GraphLaws::memory))]
pub fn graphs_of(alloc: Global, text: &[u8]) -> Result<GraphUnit, Refusal<SourceFault>>
    requires { length text.now ≤ SOURCE_LIMIT }
    ensures { GraphsOf text.now result }
{
    agreement();
    let typed = source_of(alloc, text)?;
    let unit = match lower(alloc, &typed) {
        Ok(unit) => unit,
        Err(Refusal::Refused(fault)) => return Err(Refusal::Refused(SourceFault::Lower(fault))),
        Err(Refusal::NoMemory) => return Err(Refusal::NoMemory),
    };
    match prune(alloc, &unit) {
        Ok(pruned) => Ok(pruned),
        Err(Refusal::Refused(fault)) => Err(Refusal::Refused(SourceFault::Size(fault))),
        Err(Refusal::NoMemory) => Err(Refusal::NoMemory),
    }
}
