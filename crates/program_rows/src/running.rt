//! The run of a text.

ghost use Rattle.std.specs.Prelude.{◌≤◌, ◌^◌, length, IfOk, IfErr};
ghost use Rattle.program_rows.specs.RunText.{IsRunOf};
ghost use Rattle.source_graphs.specs.SourceGraphs.{RefusesSource};

use cov_base::{Refusal, SOURCE_LIMIT};
use source_code::plain_code;
use source_graphs::SourceFault;
use stack_machine::Machine;
use stack_ops::Outcome;
use std::alloc::Global;

/// What a run put, and how it ended.
#[derive(Debug, Drop)]
pub struct TextRun {
    pub output: Vec<u8>,
    pub outcome: Outcome,
}

/// The run of a text of at most `SOURCE_LIMIT` bytes on the input, with so many turns, at most 2
/// to 40: its output and its ending are those of the text's meaning as a C source.
///
/// # Errors
///
/// The fault for which the text isn't accepted, or want of memory.
#[tactic(auto, using(crate::proofs::RunLaws::memory))]
pub fn run_text(
    alloc: Global,
    text: &[u8],
    turns: u64,
    input: &[u8],
) -> Result<TextRun, Refusal<SourceFault>>
    requires text { length text.now ≤ SOURCE_LIMIT }
    requires turns { turns ≤ 2 ^ 40 }
    ensures ok { IfOk result
        (λ run. IsRunOf text.now turns input.now run.output.items run.outcome) }
    ensures err { IfErr result (λ e. RefusesSource text.now e) }
{
    let code = plain_code(alloc, text)?;
    let Ok(mut machine) = Machine::new(alloc, code, turns) else {
        return Err(Refusal::NoMemory);
    };
    let outcome = machine.run(input);
    let output = Vec::from_slice(alloc, machine.output())?;
    Ok(TextRun { output, outcome })
}
