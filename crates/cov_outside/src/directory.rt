// The files of the current folder, whose bytes no one tells.
ghost use Rattle.std.specs.Prelude.{◌≡◌, None};

use crate::faults::{LoadFault, SinkFault};
use crate::folder::Folder;
use crate::system_files::SystemFiles;
use crate::whole_files::{load_file, replace_file};
use std::alloc::Global;
use std::rt::Files;

/// The files of the current folder. The count of faults starts at 0.
#[derive(Drop)]
pub struct DirFolder<R> {
    alloc: Global,
    calls: SystemFiles<R>,
}

impl<R: Files> DirFolder<R> {
    pub fn new(alloc: Global, files: R) -> DirFolder<R>
        ensures { result.calls.faults ≡ 0 }
    {
        DirFolder {
            alloc,
            calls: SystemFiles::new(files),
        }
    }
}

impl<R: Files> Folder for DirFolder<R> {
    ghost files = { λ d. None };

    ghost faults = { λ d. d.calls.faults };

    /// Reads at most one piece of 65,536 bytes past the limit.
    fn load(&mut self, name: &str, limit: usize) -> Result<Option<Vec<u8>>, LoadFault> {
        load_file(self.alloc, &mut self.calls, name, limit)
    }

    /// Writes the file `NAME.new`, waits until it is on the disk, and renames it.
    fn replace(&mut self, name: &str, bytes: &[u8]) -> Result<(), SinkFault> {
        replace_file(self.alloc, &mut self.calls, name, bytes)
    }
}
