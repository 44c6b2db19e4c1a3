//! The typed form of a text.

ghost use Rattle.std.specs.Prelude.{◌≤◌, length, IfOk, IfErr};
ghost use Rattle.c_tree.specs.TypedView.{typed_view};
ghost use Rattle.type_rows.specs.TypedText.{IsTypedOf, RefusesTyped};

use c_tree::Typed;
use c_types::{TypeFault, check};
use cov_base::{Refusal, SOURCE_LIMIT};
use front_rows::{TextFault, tree_of_text};
use std::alloc::Global;

/// Why a text has no typed form.
#[derive(Clone, Copy, Debug, PartialEq, Eq)]
pub enum TypedFault {
    /// It has no tree.
    Text(TextFault),
    /// A fault of names or types stands in its tree.
    Types(TypeFault),
}

/// The typed form of a text of at most `SOURCE_LIMIT` bytes. Its refusal is `Text` where the text
/// has no tree, `Types` with a fault that stands in the tree, or want of memory.
#[tactic(auto, using(crate::proofs::TypedTextLaws::is_typed, crate::proofs::TypedTextLaws::memory))]
pub fn typed_of_text(alloc: Global, text: &[u8]) -> Result<Typed, Refusal<TypedFault>>
    requires { length text.now ≤ SOURCE_LIMIT }
    ensures ok { IfOk result (λ typed. IsTypedOf text.now (typed_view typed)) }
    ensures err { IfErr result (λ e. RefusesTyped text.now e) }
{
    let tree = match tree_of_text(alloc, text) {
        Ok(tree) => tree,
        Err(Refusal::Refused(fault)) => return Err(Refusal::Refused(TypedFault::Text(fault))),
        Err(Refusal::NoMemory) => return Err(Refusal::NoMemory),
    };
    match check(alloc, &tree) {
        Ok(typed) => Ok(typed),
        Err(Refusal::Refused(fault)) => Err(Refusal::Refused(TypedFault::Types(fault))),
        Err(Refusal::NoMemory) => Err(Refusal::NoMemory),
    }
}
