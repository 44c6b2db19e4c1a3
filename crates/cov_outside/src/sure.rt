// The outside in memory, without faults.
ghost use Rattle.std.specs.Prelude.{◌≡◌, ◌≤◌, ◌<◌, [], length, option_copied, Some, IfOk, IsErrOf};
ghost use Rattle.cov_outside.specs.Outside.{HasCause, Writes};
ghost use Rattle.cov_outside.specs.Stores.{wants_after};

use crate::faults::{Failed, LoadFault, SinkFault};
use crate::folder::Folder;
use crate::named_files::NamedFiles;
use crate::remaining_bytes::RemainingBytes;
use crate::sink::Sink;
use crate::source::Source;
use crate::wants::Wants;
use crate::written_bytes::WrittenBytes;
use std::alloc::Global;

/// Bytes in memory. No read fails.
#[derive(Drop)]
pub struct SureSource {
    remaining: RemainingBytes,
}

impl SureSource {
    ghost use Rattle.cov_outside.specs.Memory.{sure_remaining};

    pub fn new(bytes: Vec<u8>) -> SureSource
        ensures { sure_remaining result ≡ bytes.items }
    {
        SureSource {
            remaining: RemainingBytes::new(bytes),
        }
    }
}

impl Source for SureSource {
    ghost use Rattle.cov_outside.specs.Memory.{sure_remaining};

    ghost remaining = { λ s. Some (sure_remaining s) };

    ghost faults = { λ s. 0 };

    fn read(&mut self, into: &mut [u8]) -> Result<usize, Failed> {
        Ok(self.remaining.take(into))
    }
}

/// Keeps the bytes that are written. A write fails for want of memory alone.
#[derive(Drop)]
pub struct SureSink {
    written: WrittenBytes,
    wants: Wants,
}

impl SureSink {
    ghost use Rattle.cov_outside.specs.Memory.{sure_written, sure_wants};

    pub fn new(alloc: Global) -> SureSink
        ensures written { sure_written result ≡ [] }
        ensures wants { sure_wants result ≡ 0 }
    {
        SureSink {
            written: WrittenBytes::new(alloc),
            wants: Wants::new(),
        }
    }

    pub fn bytes(&self) -> &[u8]
        ensures { result.now ≡ sure_written self.now }
    {
        self.written.bytes()
    }
}

impl Sink for SureSink {
    ghost use Rattle.cov_outside.specs.Memory.{sure_written, sure_wants};

    ghost written = { λ s. Some (sure_written s) };

    ghost faults = { λ s. 0 };

    ghost wants = { sure_wants };

    fn write(&mut self, piece: &[u8]) -> Result<usize, SinkFault>
        ensures whole { IfOk result (λ n. n ≡ length piece.now) }
        ensures writes { Writes (Some (sure_written self.old)) (Some (sure_written self.new)) result
            piece.now }
        ensures cause { HasCause 0 0 (IsErrOf result SinkFault.Failed) }
        ensures want { HasCause (sure_wants self.old) (sure_wants self.new)
            (IsErrOf result SinkFault.NoMemory) }
        ensures counted { sure_wants self.new ≡ wants_after result (sure_wants self.old) }
    {
        let answer = self.written.append(piece);
        self.wants.count(&answer);
        answer
    }
}

/// Files in memory. Of two of one name the last counts. No call fails but for want of memory.
#[derive(Drop)]
pub struct SureFolder {
    files: NamedFiles,
}

impl SureFolder {
    ghost use Rattle.cov_outside.specs.Memory.{sure_files};
    ghost use Rattle.cov_outside.specs.Stores.{last_file, plain_files};

    pub fn new(alloc: Global, files: Vec<(String, Vec<u8>)>) -> SureFolder
        ensures { sure_files result ≡ last_file (plain_files files.items) }
    {
        SureFolder {
            files: NamedFiles::new(alloc, files),
        }
    }

    pub fn get(&self, name: &str) -> Option<&[u8]>
        ensures { option_copied result ≡ sure_files self.now name.now }
    {
        self.files.get(name)
    }
}

impl Folder for SureFolder {
    ghost use Rattle.cov_outside.specs.Memory.{sure_files};

    ghost files = { λ s. Some (sure_files s) };

    ghost faults = { λ s. 0 };

    fn load(&mut self, name: &str, limit: usize) -> Result<Option<Vec<u8>>, LoadFault> {
        self.files.load(name, limit)
    }

    fn replace(&mut self, name: &str, bytes: &[u8]) -> Result<(), SinkFault> {
        self.files.replace(name, bytes)
    }
}
