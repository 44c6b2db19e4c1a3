//! The code of a text that counts, and the notes of the text.

ghost use Rattle.std.specs.Prelude.{◌≤◌, length, IfOk, IfErr};
ghost use Rattle.covered_code.specs.RendersCovered.{IsCovered, RefusesCovered};

use crate::notes::functions_of;
use crate::shapes::shapes_of;
use cov_base::{Refusal, SOURCE_LIMIT};
use covered_runs::walks_counted;
use gcno_format::Notes;
use orderly_units::orderly;
use source_code::stamp;
use source_graphs::{SourceFault, graphs_of};
use stack_code::{EmitFault, Mode, emission, emit};
use stack_ops::Code;
use std::alloc::Global;

/// Why a text has no code that counts.
#[derive(Clone, Copy, Debug, PartialEq, Eq)]
pub enum CodeFault {
    /// It isn't accepted.
    Source(SourceFault),
    /// Its tables are too large.
    Emit(EmitFault),
}

/// What a text is covered by.
#[derive(Drop)]
pub struct Covered {
    /// Its code that counts.
    pub code: Code,
    /// Its notes, by which what the code counts is read.
    pub notes: Notes,
}

/// The code of a text that counts the arcs off the trees of its nets, and marks their prime paths
/// where a function has no more than the limit, which is at most 65,536; and the notes of the same
/// functions, with their names, lines, nets and checksums, which can be written and are read back
/// as they are. On every input and with every number of turns the code does what the text means as
/// a C source, and its closed runs count just what their walks pass and contain.
///
/// # Errors
///
/// `Source` with the fault that stands in the text, in the order of the steps. `Emit` exactly where
/// the rows of all functions have too many numbers. `NoMemory` where memory ran out.
#[tactic(auto, using(crate::proofs::CoveredRendering::not_accepted, crate::proofs::CoveredRendering::too_large, crate::proofs::CoveredRendering::memory, crate::proofs::CoveredRendering::tidy, crate::proofs::CoveredRendering::small))]
pub fn covered_code(alloc: Global, text: &[u8], limit: u32) -> Result<Covered, Refusal<CodeFault>>
    requires length { length text.now ≤ SOURCE_LIMIT }
    requires limit { limit ≤ 65536 }
    ensures ok { IfOk result (λ covered. IsCovered text.now limit covered) }
    ensures err { IfErr result (λ e. RefusesCovered text.now limit e) }
{
    orderly();
    emission();
    walks_counted();
    let unit = match graphs_of(alloc, text) {
        Ok(unit) => unit,
        Err(Refusal::Refused(fault)) => return Err(Refusal::Refused(CodeFault::Source(fault))),
        Err(Refusal::NoMemory) => return Err(Refusal::NoMemory),
    };
    let Ok(shapes) = shapes_of(alloc, &unit.graphs, limit) else {
        return Err(Refusal::NoMemory);
    };
    let Ok(functions) = functions_of(alloc, &unit.graphs) else {
        return Err(Refusal::NoMemory);
    };
    let mark = stamp(limit, text);
    let notes = Notes {
        stamp: mark,
        limit,
        functions,
    };
    match emit(alloc, &unit, &shapes, mark, Mode::Covered) {
        Ok(code) => Ok(Covered { code, notes }),
        Err(Refusal::Refused(fault)) => Err(Refusal::Refused(CodeFault::Emit(fault))),
        Err(Refusal::NoMemory) => Err(Refusal::NoMemory),
    }
}
