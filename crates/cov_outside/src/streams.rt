// The real streams, whose bytes no one tells.
ghost use Rattle.std.specs.Prelude.{◌≡◌, None};

use crate::faults::{Failed, SinkFault};
use crate::sink::Sink;
use crate::source::Source;
use std::io::{ErrorKind, Read, Write};

/// Standard input, or another reader. The count of faults starts at 0.
#[derive(Drop)]
pub struct StdSource<R> {
    reader: R,
    faults: u64,
}

impl<R: Read> StdSource<R> {
    pub fn new(reader: R) -> StdSource<R>
        ensures { result.faults ≡ 0 }
    {
        StdSource { reader, faults: 0 }
    }
}

impl<R: Read> Source for StdSource<R> {
    ghost remaining = { λ s. None };

    ghost faults = { λ s. s.faults };

    /// An interrupted read is tried again.
    fn read(&mut self, into: &mut [u8]) -> Result<usize, Failed> {
        for _ in 0..u64::MAX {
            match self.reader.read(into) {
                Ok(count) => return Ok(count),
                Err(error) if error.kind() == ErrorKind::Interrupted => {}
                Err(_) => break,
            }
        }
        self.faults = self.faults.saturating_add(1);
        Err(Failed)
    }
}

/// Standard output, or another writer. The count of faults starts at 0.
#[derive(Drop)]
pub struct StdSink<W> {
    writer: W,
    faults: u64,
}

impl<W: Write> StdSink<W> {
    pub fn new(writer: W) -> StdSink<W>
        ensures { result.faults ≡ 0 }
    {
        StdSink { writer, faults: 0 }
    }
}

impl<W: Write> Sink for StdSink<W> {
    ghost written = { λ s. None };

    ghost faults = { λ s. s.faults };

    ghost wants = { λ s. 0 };

    /// A writer that takes none of a piece that isn't empty has failed. An interrupted write is
    /// tried again.
    fn write(&mut self, piece: &[u8]) -> Result<usize, SinkFault> {
        for _ in 0..u64::MAX {
            match self.writer.write(piece) {
                Ok(count) if 0 < count || piece.is_empty() => return Ok(count),
                Err(error) if error.kind() == ErrorKind::Interrupted => {}
                Ok(_) | Err(_) => break,
            }
        }
        self.faults = self.faults.saturating_add(1);
        Err(SinkFault::Failed)
    }
}

/// Standard error. The count of faults starts at 0.
#[derive(Drop)]
pub struct StdErr<W> {
    sink: StdSink<W>,
}

impl<W: Write> StdErr<W> {
    pub fn new(writer: W) -> StdErr<W>
        ensures { result.sink.faults ≡ 0 }
    {
        StdErr {
            sink: StdSink::new(writer),
        }
    }
}

impl<W: Write> Sink for StdErr<W> {
    ghost written = { λ s. None };

    ghost faults = { λ s. s.sink.faults };

    ghost wants = { λ s. 0 };

    fn write(&mut self, piece: &[u8]) -> Result<usize, SinkFault> {
        self.sink.write(piece)
    }
}
