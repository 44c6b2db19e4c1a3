// Files in memory under the single calls, of which some fail.
ghost use Rattle.std.specs.Prelude.{◌≡◌, None, Some, IsErr, IfErr, OnErr, OnOk, string_bytes};
ghost use Rattle.cov_outside.specs.Changes.{files_after};
ghost use Rattle.cov_outside.specs.Outside.{HasCause};

use crate::calls::Calls;
use crate::change_log::ChangeLog;
use crate::faults::CallFault;
use crate::file_calls::FileCalls;
use crate::remaining_bytes::RemainingBytes;
use std::alloc::Global;

/// Files in memory.
#[derive(Drop)]
pub(crate) struct ToldFiles {
    alloc: Global,
    files: ChangeLog,
    calls: Calls,
    fault: CallFault,
}

/// An open file: its name, the bytes that no read took yet, and whether all that was written is
/// on the disk.
#[derive(Drop)]
pub(crate) struct ToldFile {
    name: String,
    rest: RemainingBytes,
    synced: bool,
}

impl ToldFiles {
    /// No file. The calls with these numbers, from 0, tell this fault.
    pub(crate) fn new(alloc: Global, fails: Vec<u64>, fault: CallFault) -> ToldFiles
        ensures { files_after result.files.changes.items ≡ (λ name. None) }
    {
        ToldFiles {
            alloc,
            files: ChangeLog::new(alloc),
            calls: Calls::new(fails),
            fault,
        }
    }

    /// Counts a call, and tells the fault where it fails.
    fn call(&mut self) -> Result<(), CallFault>
        ensures files { self.new.files ≡ self.old.files }
        ensures cause { HasCause self.old.calls.faults self.new.calls.faults (IsErr result) }
    {
        if self.calls.fails() {
            return Err(self.fault);
        }
        Ok(())
    }
}

impl FileCalls for ToldFiles {
    ghost use Rattle.cov_outside.specs.Changes.{files_after};
    ghost use Rattle.std.specs.Prelude.{Some, string_bytes};

    type File = ToldFile;

    ghost files = { λ s. Some (files_after s.files.changes.items) };

    ghost faults = { λ s. s.calls.faults };

    ghost unread = { λ f. Some f.rest };

    ghost name_of = { λ f. string_bytes f.name };

    ghost is_synced = { λ f. f.synced };

    fn open(&mut self, name: &str) -> Result<Option<ToldFile>, CallFault> {
        self.call()?;
        let Some(bytes) = self.files.copy(name)? else {
            return Ok(None);
        };
        Ok(Some(ToldFile {
            name: String::from_str(self.alloc, name)?,
            rest: RemainingBytes::new(bytes),
            synced: false,
        }))
    }

    fn read(&mut self, file: &mut ToldFile, into: &mut [u8]) -> Result<usize, CallFault> {
        self.call()?;
        Ok(file.rest.take(into))
    }

    fn create(&mut self, name: &str) -> Result<ToldFile, CallFault> {
        self.call()?;
        let own = String::from_str(self.alloc, name)?;
        self.files.change(name, Some(Vec::new(self.alloc)), name)?;
        Ok(ToldFile {
            name: own,
            rest: RemainingBytes::new(Vec::new(self.alloc)),
            synced: false,
        })
    }

    /// What is written to a file that was removed is lost.
    fn write(&mut self, file: &mut ToldFile, piece: &[u8]) -> Result<usize, CallFault> {
        self.call()?;
        file.synced = false;
        let name = file.name.as_str();
        let Some(mut bytes) = self.files.copy(name)? else {
            return Ok(piece.len());
        };
        bytes.extend_from_slice(piece)?;
        self.files.change(name, Some(bytes), name)?;
        Ok(piece.len())
    }

    fn sync(&mut self, file: &mut ToldFile) -> Result<(), CallFault> {
        self.call()?;
        file.synced = true;
        Ok(())
    }

    fn rename(&mut self, _file: ToldFile, from: &str, to: &str) -> Result<(), CallFault> {
        self.call()?;
        let bytes = self.files.copy(from)?;
        self.files.change(to, bytes, from)
    }

    fn remove(&mut self, name: &str) -> Result<(), CallFault> {
        self.call()?;
        self.files.change(name, None, name)
    }
}
