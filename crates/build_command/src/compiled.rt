//! Sources that commands load and compile.

ghost use Rattle.std.specs.Prelude.{◌≡◌, ◌≤◌, length, None, IfErr, IfOk};
ghost use Rattle.code_runs.specs.CodeChecks.{code_fault};
ghost use Rattle.cov_base.specs.Limits.{source_limit};
ghost use Rattle.gcno_format.specs.Spelling.{IsWritable};
ghost use Rattle.build_command.specs.Compiled.{Compiles, CompilesPlain};

use cov_answers::{End, SourceFault};
use cov_base::Refusal;
use covered_code::{CodeFault, Covered, covered_code};
use source_code::plain_code;
use stack_code::EmitFault;
use stack_ops::Code;
use std::alloc::Global;

/// The code of a text that counts, and its notes; the limit of paths is at most 65,536.
pub fn compile(alloc: Global, text: &[u8], limit: u32) -> Result<Covered, End>
    requires length { length text.now ≤ source_limit }
    requires limit { limit ≤ 65536 }
    ensures compiles { Compiles text.now limit result }
    ensures checked { IfOk result (λ covered. code_fault covered.code ≡ None) }
    ensures writable { IfOk result (λ covered. IsWritable covered.notes) }
    ensures folder { IfErr result (λ end. end ≡ End.FolderFault → ⊥) }
{
    match covered_code(alloc, text, limit) {
        Ok(covered) => Ok(covered),
        Err(Refusal::Refused(CodeFault::Source(fault))) => {
            Err(End::SourceRefused(SourceFault::NotAccepted(fault)))
        }
        Err(Refusal::Refused(CodeFault::Emit(EmitFault::TablesTooLarge(words)))) => {
            Err(End::SourceRefused(SourceFault::TablesTooLarge(words)))
        }
        Err(Refusal::NoMemory) => Err(End::NoMemory),
    }
}

/// The code of a text that doesn't count.
pub fn compile_plain(alloc: Global, text: &[u8]) -> Result<Code, End>
    requires { length text.now ≤ source_limit }
    ensures compiles { CompilesPlain text.now result }
    ensures checked { IfOk result (λ code. code_fault code ≡ None) }
    ensures folder { IfErr result (λ end. end ≡ End.FolderFault → ⊥) }
{
    match plain_code(alloc, text) {
        Ok(code) => Ok(code),
        Err(Refusal::Refused(fault)) => Err(End::SourceRefused(SourceFault::NotAccepted(fault))),
        Err(Refusal::NoMemory) => Err(End::NoMemory),
    }
}
