//! The reader of notes.

ghost use Rattle.gcno_format.specs.Exact.{IsExactly};
ghost use Rattle.gcno_format.specs.Values.{TellsNotes};

use crate::files::laid_out;
use crate::notes::Notes;
use crate::values::notes_of;
use cov_base::Refusal;
use gcov_records::FileFault;
use std::alloc::Global;

/// Reads the notes of a file: exactly where the bytes are its written form. Otherwise the first
/// fault is told with its place: each item is tested once it stands whole, and whether the records
/// are those of nets once all of them stand there and no byte is left. Memory is taken in
/// proportion to the bytes alone.
pub fn read_notes(alloc: Global, bytes: &[u8]) -> Result<Notes, Refusal<FileFault>>
    ensures told { TellsNotes bytes.now result }
    ensures exact { IsExactly bytes.now }
{
    let file = laid_out(alloc, bytes)?;
    let notes = notes_of(alloc, &file)?;
    Ok(notes)
}
