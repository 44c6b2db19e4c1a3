// The outside in memory, with calls that fail by their number.
ghost use Rattle.std.specs.Prelude.{
  ◌≡◌,
  ◌≤◌,
  [],
  length,
  option_copied,
  Some,
  IfOk,
  IfSome,
  IsErr,
  IsErrOf,
};
ghost use Rattle.cov_outside.specs.Outside.{HasCause, Reads, Writes, Loads, Replaces};
ghost use Rattle.cov_outside.specs.Stores.{Numbered, new_log, wants_after};

use crate::calls::Calls;
use crate::faults::{Failed, LoadFault, SinkFault};
use crate::folder::Folder;
use crate::named_files::NamedFiles;
use crate::remaining_bytes::RemainingBytes;
use crate::sink::Sink;
use crate::source::Source;
use crate::wants::Wants;
use crate::written_bytes::WrittenBytes;
use std::alloc::Global;

/// Bytes in memory. Each read takes all that fits.
#[derive(Drop)]
pub struct MemSource {
    remaining: RemainingBytes,
    calls: Calls,
}

impl MemSource {
    ghost use Rattle.cov_outside.specs.Memory.{source_remaining, source_log};

    /// These bytes, of which the calls with these numbers, from 0, fail.
    pub fn new(bytes: Vec<u8>, fails: Vec<u64>) -> MemSource
        ensures remaining { source_remaining result ≡ bytes.items }
        ensures calls { source_log result ≡ new_log fails.items }
    {
        MemSource {
            remaining: RemainingBytes::new(bytes),
            calls: Calls::new(fails),
        }
    }
}

impl Source for MemSource {
    ghost use Rattle.cov_outside.specs.Memory.{source_remaining, source_log};

    ghost remaining = { λ m. Some (source_remaining m) };

    ghost faults = { λ m. (source_log m).faults };

    fn read(&mut self, into: &mut [u8]) -> Result<usize, Failed>
        ensures fits { IfOk result (λ n. n ≤ length into.new) }
        ensures reads { Reads (Some (source_remaining self.old)) (Some (source_remaining self.new))
            result into.new }
        ensures cause { HasCause (source_log self.old).faults (source_log self.new).faults
            (IsErr result) }
        ensures numbered { Numbered (source_log self.old) (source_log self.new) (IsErr result) }
    {
        if self.calls.fails() {
            return Err(Failed);
        }
        Ok(self.remaining.take(into))
    }
}

/// Keeps the bytes that are written. Each write takes the whole piece.
#[derive(Drop)]
pub struct MemSink {
    written: WrittenBytes,
    calls: Calls,
    wants: Wants,
}

impl MemSink {
    ghost use Rattle.cov_outside.specs.Memory.{sink_written, sink_log, sink_wants};

    /// Nothing written. The calls with these numbers, from 0, fail.
    pub fn new(alloc: Global, fails: Vec<u64>) -> MemSink
        ensures written { sink_written result ≡ [] }
        ensures calls { sink_log result ≡ new_log fails.items }
        ensures wants { sink_wants result ≡ 0 }
    {
        MemSink {
            written: WrittenBytes::new(alloc),
            calls: Calls::new(fails),
            wants: Wants::new(),
        }
    }

    pub fn bytes(&self) -> &[u8]
        ensures { result.now ≡ sink_written self.now }
    {
        self.written.bytes()
    }
}

impl Sink for MemSink {
    ghost use Rattle.cov_outside.specs.Memory.{sink_written, sink_log, sink_wants};

    ghost written = { λ m. Some (sink_written m) };

    ghost faults = { λ m. (sink_log m).faults };

    ghost wants = { sink_wants };

    fn write(&mut self, piece: &[u8]) -> Result<usize, SinkFault>
        ensures whole { IfOk result (λ n. n ≡ length piece.now) }
        ensures writes { Writes (Some (sink_written self.old)) (Some (sink_written self.new)) result
            piece.now }
        ensures cause { HasCause (sink_log self.old).faults (sink_log self.new).faults
            (IsErrOf result SinkFault.Failed) }
        ensures numbered { Numbered (sink_log self.old) (sink_log self.new)
            (IsErrOf result SinkFault.Failed) }
        ensures want { HasCause (sink_wants self.old) (sink_wants self.new)
            (IsErrOf result SinkFault.NoMemory) }
        ensures counted { sink_wants self.new ≡ wants_after result (sink_wants self.old) }
    {
        if self.calls.fails() {
            return Err(SinkFault::Failed);
        }
        let answer = self.written.append(piece);
        self.wants.count(&answer);
        answer
    }
}

/// Files in memory. Of two of one name the last counts.
#[derive(Drop)]
pub struct MemFolder {
    files: NamedFiles,
    calls: Calls,
}

impl MemFolder {
    ghost use Rattle.cov_outside.specs.Memory.{folder_files, folder_log};
    ghost use Rattle.cov_outside.specs.Stores.{last_file, plain_files};

    /// These files. The calls with these numbers, from 0, fail.
    pub fn new(alloc: Global, files: Vec<(String, Vec<u8>)>, fails: Vec<u64>) -> MemFolder
        ensures files { folder_files result ≡ last_file (plain_files files.items) }
        ensures calls { folder_log result ≡ new_log fails.items }
    {
        MemFolder {
            files: NamedFiles::new(alloc, files),
            calls: Calls::new(fails),
        }
    }

    pub fn get(&self, name: &str) -> Option<&[u8]>
        ensures { option_copied result ≡ folder_files self.now name.now }
    {
        self.files.get(name)
    }
}

impl Folder for MemFolder {
    ghost use Rattle.cov_outside.specs.Memory.{folder_files, folder_log};

    ghost files = { λ m. Some (folder_files m) };

    ghost faults = { λ m. (folder_log m).faults };

    fn load(&mut self, name: &str, limit: usize) -> Result<Option<Vec<u8>>, LoadFault>
        ensures limit { IfOk result (λ found. IfSome found (λ bytes. length bytes.items ≤ limit)) }
        ensures loads { Loads (Some (folder_files self.old)) name.now limit result }
        ensures kept { folder_files self.new ≡ folder_files self.old }
        ensures cause { HasCause (folder_log self.old).faults (folder_log self.new).faults
            (IsErrOf result LoadFault.Failed) }
        ensures numbered { Numbered (folder_log self.old) (folder_log self.new)
            (IsErrOf result LoadFault.Failed) }
    {
        if self.calls.fails() {
            return Err(LoadFault::Failed);
        }
        self.files.load(name, limit)
    }

    fn replace(&mut self, name: &str, bytes: &[u8]) -> Result<(), SinkFault>
        ensures replaces { Replaces (Some (folder_files self.old)) (Some (folder_files self.new))
            name.now bytes.now result }
        ensures cause { HasCause (folder_log self.old).faults (folder_log self.new).faults
            (IsErrOf result SinkFault.Failed) }
        ensures numbered { Numbered (folder_log self.old) (folder_log self.new)
            (IsErrOf result SinkFault.Failed) }
    {
        if self.calls.fails() {
            return Err(SinkFault::Failed);
        }
        self.files.replace(name, bytes)
    }
}
