// All the bytes of a source.
ghost use Rattle.std.specs.Prelude.{ℕ, ◌≤◌, length, IfOk, IsErrOf};
ghost use Rattle.cov_outside.specs.Outside.{HasCause, ReadsAll};

use crate::faults::ReadRefusal;
use crate::source::Source;
use std::alloc::Global;

/// How many bytes one read takes at most.
const PIECE: usize = 65_536;

/// The bytes left, to the end; no more than `limit` of them are.
///
/// # Errors
///
/// `TooLong` where there are more: `limit` and one more byte were taken. `Failed` where a read
/// failed, and `NoMemory`: some bytes were taken.
pub fn read_all<S: Source>(
    alloc: Global,
    source: &mut S,
    limit: usize,
) -> Result<Vec<u8>, ReadRefusal>
    ensures limit { IfOk result (λ bytes. length bytes.items ≤ limit) }
    ensures reads { ReadsAll (S.remaining source.old) (S.remaining source.new) limit result }
    ensures cause { HasCause (S.faults source.old) (S.faults source.new)
        (IsErrOf result ReadRefusal.Failed) }
{
    let mut bytes = Vec::new(alloc);
    let mut piece = [0; PIECE];
    while bytes.len() <= limit {
        let room = (limit - bytes.len()).min(PIECE - 1) + 1;
        let count = source.read(&mut piece[..room])?;
        if count == 0 {
            return Ok(bytes);
        }
        bytes.extend_from_slice(&piece[..count])?;
    }
    Err(ReadRefusal::TooLong)
}
