//! The graphs of a text before they are pruned.

ghost use Rattle.std.specs.Prelude.{◌≤◌, length, IfOk, IfErr};
ghost use Rattle.lower_rows.specs.LoweredText.{IsLoweredOf, RefusesLowered};

use c_lower::{LowerFault, lower};
use cov_base::{Refusal, SOURCE_LIMIT};
use flow_graph::GraphUnit;
use std::alloc::Global;
use type_rows::{TypedFault, typed_of_text};

/// Why a text has no graphs.
#[derive(Clone, Copy, Debug, PartialEq, Eq)]
pub enum LoweredFault {
    /// It has no typed form.
    Typed(TypedFault),
    /// Its globals or a frame are too large.
    Lower(LowerFault),
}

/// The graphs of a text of at most `SOURCE_LIMIT` bytes, which aren't pruned. Its refusal is
/// `Typed` where the text has no typed form, `Lower` with the first fault of size, or want of
/// memory.
#[tactic(auto, using(crate::proofs::LoweredTextLaws::is_lowered, crate::proofs::LoweredTextLaws::memory))]
pub fn lowered_of_text(alloc: Global, text: &[u8]) -> Result<GraphUnit, Refusal<LoweredFault>>
    requires { length text.now ≤ SOURCE_LIMIT }
    ensures ok { IfOk result (λ unit. IsLoweredOf text.now unit) }
    ensures err { IfErr result (λ e. RefusesLowered text.now e) }
{
    let typed = match typed_of_text(alloc, text) {
        Ok(typed) => typed,
        Err(Refusal::Refused(fault)) => return Err(Refusal::Refused(LoweredFault::Typed(fault))),
        Err(Refusal::NoMemory) => return Err(Refusal::NoMemory),
    };
    match lower(alloc, &typed) {
        Ok(unit) => Ok(unit),
        Err(Refusal::Refused(fault)) => Err(Refusal::Refused(LoweredFault::Lower(fault))),
        Err(Refusal::NoMemory) => Err(Refusal::NoMemory),
    }
}
