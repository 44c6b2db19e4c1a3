// Whole files, loaded and replaced by single calls.
ghost use Rattle.std.specs.Prelude.{
  ◌≡◌,
  ◌≢◌,
  ◌<◌,
  ◌≤◌,
  length,
  IfOk,
  IfSome,
  IsErrOf,
};
ghost use Rattle.cov_outside.specs.FileCalls.{
  Appends,
  AppendsAll,
  IsCallFault,
  ReadsRest,
  ReplacesFile,
  Told,
  beside,
};
ghost use Rattle.cov_outside.specs.Outside.{HasCause, Loads, Reads};

use crate::faults::{CallFault, LoadFault, SinkFault};
use crate::file_calls::FileCalls;
use std::alloc::Global;

/// How many bytes one read takes at most.
const PIECE: usize = 65_536;

/// The bytes under the name, at most `limit` of them.
pub(crate) fn load_file<C: FileCalls>(
    alloc: Global,
    calls: &mut C,
    name: &str,
    limit: usize,
) -> Result<Option<Vec<u8>>, LoadFault>
    ensures limit { IfOk result (λ found. IfSome found (λ bytes. length bytes.items ≤ limit)) }
    ensures loads { Loads (C.files calls.old) name.now limit result }
    ensures stands { C.files calls.new ≡ C.files calls.old }
    ensures cause { HasCause (C.faults calls.old) (C.faults calls.new)
        (IsErrOf result LoadFault.Failed) }
{
    match calls.open(name)? {
        Some(file) => Ok(Some(read_rest(alloc, calls, file, limit)?)),
        None => Ok(None),
    }
}

/// The bytes of an open file that no read took yet, at most `limit` of them.
fn read_rest<C: FileCalls>(
    alloc: Global,
    calls: &mut C,
    mut file: C::File,
    limit: usize,
) -> Result<Vec<u8>, LoadFault>
    ensures limit { IfOk result (λ bytes. length bytes.items ≤ limit) }
    ensures reads { ReadsRest (C.unread file) limit result }
    ensures stands { C.files calls.new ≡ C.files calls.old }
    ensures cause { HasCause (C.faults calls.old) (C.faults calls.new)
        (IsErrOf result LoadFault.Failed) }
{
    let mut bytes = Vec::new(alloc);
    let mut piece = [0; PIECE];
    while bytes.len() <= limit {
        let count = read_again(calls, &mut file, &mut piece)?;
        if count == 0 {
            return Ok(bytes);
        }
        bytes.extend_from_slice(&piece[..count])?;
    }
    Err(LoadFault::TooLong)
}

/// Reads, and tries again where that was interrupted.
fn read_again<C: FileCalls>(
    calls: &mut C,
    file: &mut C::File,
    into: &mut [u8],
) -> Result<usize, CallFault>
    ensures fits { IfOk result (λ n. n ≤ length into.new) }
    ensures reads { Reads (C.unread file.old) (C.unread file.new) result into.new }
    ensures stands { C.files calls.new ≡ C.files calls.old }
    ensures cause { HasCause (C.faults calls.old) (C.faults calls.new) (IsCallFault result) }
{
    let mut answer = calls.read(file, into);
    for _ in 0..u64::MAX {
        let Err(CallFault::Interrupted) = answer else {
            break;
        };
        answer = calls.read(file, into);
    }
    answer
}

/// Puts the bytes under the name: writes a file beside, waits until it is on the disk, and renames
/// it. Where the machine stops meanwhile, the name has the old bytes or the new ones.
pub(crate) fn replace_file<C: FileCalls>(
    alloc: Global,
    calls: &mut C,
    name: &str,
    bytes: &[u8],
) -> Result<(), SinkFault>
    ensures replaces { Told (ReplacesFile name.now bytes.now result) (C.files calls.old)
        (C.files calls.new) }
    ensures cause { HasCause (C.faults calls.old) (C.faults calls.new)
        (IsErrOf result SinkFault.Failed) }
{
    let fresh = format!(in alloc; "{name}.new")?;
    match write_and_rename(calls, fresh.as_str(), name, bytes) {
        Ok(()) => Ok(()),
        Err(fault) => {
            let _ = calls.remove(fresh.as_str());
            Err(SinkFault::from(fault))
        }
    }
}

/// Writes the bytes to a new file and renames it.
fn write_and_rename<C: FileCalls>(
    calls: &mut C,
    fresh: &str,
    name: &str,
    bytes: &[u8],
) -> Result<(), CallFault>
    requires { fresh.now ≡ beside name.now }
    ensures replaces { Told (ReplacesFile name.now bytes.now result) (C.files calls.old)
        (C.files calls.new) }
    ensures cause { HasCause (C.faults calls.old) (C.faults calls.new) (IsCallFault result) }
{
    let mut file = calls.create(fresh)?;
    append_all(calls, &mut file, bytes)?;
    calls.sync(&mut file)?;
    calls.rename(file, fresh, name)
}

/// Puts all the bytes at the end of a created file.
fn append_all<C: FileCalls>(
    calls: &mut C,
    file: &mut C::File,
    bytes: &[u8],
) -> Result<(), CallFault>
    ensures appends { Told (AppendsAll (C.name_of file.old) result bytes.now) (C.files calls.old)
        (C.files calls.new) }
    ensures named { C.name_of file.new ≡ C.name_of file.old }
    ensures cause { HasCause (C.faults calls.old) (C.faults calls.new) (IsCallFault result) }
{
    let mut at = 0;
    while at < bytes.len() {
        at += write_again(calls, file, &bytes[at..])?;
    }
    Ok(())
}

/// Writes, and tries again where that was interrupted.
fn write_again<C: FileCalls>(
    calls: &mut C,
    file: &mut C::File,
    piece: &[u8],
) -> Result<usize, CallFault>
    ensures fits { IfOk result (λ n. n ≤ length piece.now) }
    ensures goes { IfOk result (λ n. 0 < length piece.now → 0 < n) }
    ensures named { C.name_of file.new ≡ C.name_of file.old }
    ensures appends { Told (Appends (C.name_of file.old) result piece.now) (C.files calls.old)
        (C.files calls.new) }
    ensures cause { HasCause (C.faults calls.old) (C.faults calls.new) (IsCallFault result) }
{
    let mut answer = calls.write(file, piece);
    for _ in 0..u64::MAX {
        let Err(CallFault::Interrupted) = answer else {
            break;
        };
        answer = calls.write(file, piece);
    }
    answer
}
