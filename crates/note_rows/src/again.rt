//! Notes read from their file and written again.

ghost use Rattle.std.specs.Prelude.{◌≡◌, IfOk};

use cov_base::Refusal;
use gcno_format::{FileFault, read_notes, write_notes};
use std::alloc::Global;

/// The file of the notes that the bytes are: the same bytes.
///
/// # Errors
///
/// The first fault of the bytes. `NoMemory` where memory ran out.
pub fn written_again(alloc: Global, bytes: &[u8]) -> Result<Vec<u8>, Refusal<FileFault>>
    ensures { IfOk result (λ written. written.items ≡ bytes.now) }
{
    let notes = read_notes(alloc, bytes)?;
    match write_notes(alloc, &notes) {
        Ok(written) => Ok(written),
        Err(_) => Err(Refusal::NoMemory),
    }
}
