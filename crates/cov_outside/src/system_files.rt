// The system's own calls on files, whose bytes no one tells.
ghost use Rattle.std.specs.Prelude.{◌≡◌, [], None, true};

use crate::faults::CallFault;
use crate::file_calls::FileCalls;
use std::fs::OpenFile;
use std::io::{ErrorKind, Read, Write};
use std::rt::Files;
use std::{fs, io};

/// The file system. The count of faults starts at 0.
#[derive(Drop)]
pub(crate) struct SystemFiles<R> {
    files: R,
    faults: u64,
}

impl<R: Files> SystemFiles<R> {
    pub(crate) fn new(files: R) -> SystemFiles<R>
        ensures { result.faults ≡ 0 }
    {
        SystemFiles { files, faults: 0 }
    }
}

impl<R> SystemFiles<R> {
    ghost use Rattle.cov_outside.specs.Outside.{HasCause};

    /// The fault that an error tells. A want of memory isn't counted.
    fn fault(&mut self, error: &io::Error) -> CallFault
        ensures { HasCause self.old.faults self.new.faults (result ≡ CallFault.NoMemory → ⊥) }
    {
        let fault = match error.kind() {
            ErrorKind::OutOfMemory => return CallFault::NoMemory,
            ErrorKind::Interrupted => CallFault::Interrupted,
            _ => CallFault::Failed,
        };
        self.faults = self.faults.saturating_add(1);
        fault
    }
}

impl<R: Files> FileCalls for SystemFiles<R> {
    type File = R::File;

    ghost files = { λ s. None };

    ghost faults = { λ s. s.faults };

    ghost unread = { λ f. None };

    ghost name_of = { λ f. [] };

    ghost is_synced = { λ f. true };

    fn open(&mut self, name: &str) -> Result<Option<R::File>, CallFault> {
        match fs::open(&self.files, name) {
            Ok(file) => Ok(Some(file)),
            Err(error) if error.kind() == ErrorKind::NotFound => Ok(None),
            Err(error) => Err(self.fault(&error)),
        }
    }

    fn read(&mut self, file: &mut R::File, into: &mut [u8]) -> Result<usize, CallFault> {
        match file.read(into) {
            Ok(count) => Ok(count),
            Err(error) => Err(self.fault(&error)),
        }
    }

    fn create(&mut self, name: &str) -> Result<R::File, CallFault> {
        match fs::create(&self.files, name) {
            Ok(file) => Ok(file),
            Err(error) => Err(self.fault(&error)),
        }
    }

    /// A file that takes none of a piece that isn't empty has failed.
    fn write(&mut self, file: &mut R::File, piece: &[u8]) -> Result<usize, CallFault> {
        match file.write(piece) {
            Ok(count) if 0 < count || piece.is_empty() => Ok(count),
            Ok(_) => Err(self.fault(&io::Error::from(ErrorKind::WriteZero))),
            Err(error) => Err(self.fault(&error)),
        }
    }

    fn sync(&mut self, file: &mut R::File) -> Result<(), CallFault> {
        match file.sync_all() {
            Ok(()) => Ok(()),
            Err(error) => Err(self.fault(&error)),
        }
    }

    fn rename(&mut self, _file: R::File, from: &str, to: &str) -> Result<(), CallFault> {
        match fs::rename(&self.files, from, to) {
            Ok(()) => Ok(()),
            Err(error) => Err(self.fault(&error)),
        }
    }

    fn remove(&mut self, name: &str) -> Result<(), CallFault> {
        match fs::remove_file(&self.files, name) {
            Ok(()) => Ok(()),
            Err(error) => Err(self.fault(&error)),
        }
    }
}
