//! Code files, read and written again.

ghost use Rattle.std.specs.Prelude.{◌≡◌, IfOk};
ghost use Rattle.std.specs.Option.{option_map};
ghost use Rattle.code_rows.specs.Rewriting as spec;

use code_file::{read_code, write_code};
use cov_base::{NoMemory, Refusal};
use std::alloc::Global;

/// The same bytes again, where they are a code file; else none.
pub fn rewritten(alloc: Global, bytes: &[u8]) -> Result<Option<Vec<u8>>, NoMemory>
    ensures { IfOk result
        (λ found. spec.Rewrites bytes.now (option_map (λ v. v.items) found)) }
{
    match read_code(alloc, bytes) {
        Ok(checked) => Ok(Some(write_code(alloc, checked.code())?)),
        Err(Refusal::Refused(_)) => Ok(None),
        Err(Refusal::NoMemory) => Err(NoMemory),
    }
}
