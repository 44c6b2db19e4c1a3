//! The code of a text that doesn't count.

ghost use Rattle.std.specs.Prelude.{◌≤◌, length};
ghost use Rattle.source_code.specs.Renders.{PlainCodeOf};

use crate::stamps::stamp;
use cov_base::{Refusal, SOURCE_LIMIT};
use orderly_units::orderly;
use source_graphs::{SourceFault, graphs_of};
use stack_code::{Mode, emission, emit};
use stack_ops::Code;
use std::alloc::Global;

/// The code of a text, which doesn't count, and on every input and with every number of turns does
/// what the text means as a C source.
///
/// # Errors
///
/// The fault that stands, in the order of the steps: of the text, of its tokens, of its tree's
/// names and types, and of sizes. `NoMemory` where memory ran out.
#[tactic(auto, using(crate::proofs::Rendering::memory, crate::proofs::Rendering::small, crate::proofs::Rendering::renders))]
pub fn plain_code(alloc: Global, text: &[u8]) -> Result<Code, Refusal<SourceFault>>
    requires { length text.now ≤ SOURCE_LIMIT }
    ensures { PlainCodeOf text.now result }
{
    orderly();
    emission();
    let unit = graphs_of(alloc, text)?;
    match emit(alloc, &unit, &[], stamp(0, text), Mode::Plain) {
        Ok(code) => Ok(code),
        // Tables are refused only where a code counts.
        Err(_) => Err(Refusal::NoMemory),
    }
}
