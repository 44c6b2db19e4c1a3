//! The run of a text by its code that counts.

ghost use Rattle.std.specs.Prelude.{◌≤◌, ◌^◌, length, IfOk, IfErr};
ghost use Rattle.covered_code.specs.RendersCovered.{RefusesCovered};
ghost use Rattle.covered_rows.specs.CountText.{IsCountedRun};

use cov_base::{Refusal, SOURCE_LIMIT};
use covered_code::{CodeFault, covered_code};
use stack_machine::Machine;
use stack_ops::Outcome;
use std::alloc::Global;

/// How a run ended, and the machine that ran it, with what it counted.
#[derive(Drop)]
pub struct CountedRun {
    pub outcome: Outcome,
    pub machine: Machine,
}

/// The run of a text of at most `SOURCE_LIMIT` bytes on the input, with so many turns, at most 2
/// to 40, by its code that counts: its output and its ending are those of the text's meaning as a C
/// source, and where it returned or exited its machine holds the passages of its walks and the bits
/// of the prime paths that they contain, in functions with no more of these than the limit, at most
/// 65,536.
///
/// # Errors
///
/// The fault for which the text has no such code, or want of memory.
#[tactic(auto, using(crate::proofs::CountLaws::counts, crate::proofs::CountLaws::memory))]
pub fn count_text(
    alloc: Global,
    text: &[u8],
    limit: u32,
    turns: u64,
    input: &[u8],
) -> Result<CountedRun, Refusal<CodeFault>>
    requires text { length text.now ≤ SOURCE_LIMIT }
    requires limit { limit ≤ 65536 }
    requires turns { turns ≤ 2 ^ 40 }
    ensures ok { IfOk result
        (λ run. IsCountedRun text.now limit turns input.now run.outcome run.machine) }
    ensures err { IfErr result (λ e. RefusesCovered text.now limit e) }
{
    let covered = covered_code(alloc, text, limit)?;
    let Ok(mut machine) = Machine::new(alloc, covered.code, turns) else {
        return Err(Refusal::NoMemory);
    };
    let outcome = machine.run(input);
    Ok(CountedRun { outcome, machine })
}
