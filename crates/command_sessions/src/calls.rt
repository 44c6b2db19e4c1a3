//! Commands run over objects in memory.

use cov_outside::{MemFolder, MemSink, MemSource, Source};
use cov_program::{perform, status_of};
use std::alloc::{AllocError, Global};

/// A command: its words and standard input, and the numbers of the calls of standard input, the
/// output and the error output that fail.
#[derive(Drop)]
pub(crate) struct Call {
    pub(crate) words: Vec<String>,
    pub(crate) input: Vec<u8>,
    pub(crate) in_input: Vec<u64>,
    pub(crate) in_out: Vec<u64>,
    pub(crate) in_err: Vec<u64>,
}

/// What a command left: its answer as `Debug` prints it, its exit status, what it wrote, and how
/// many bytes of standard input it left, up to 9.
#[derive(Drop)]
pub(crate) struct Outcome {
    pub(crate) end: String,
    pub(crate) status: u8,
    pub(crate) out: Vec<u8>,
    pub(crate) err: Vec<u8>,
    pub(crate) left: usize,
}

/// The words of a line.
pub(crate) fn words_in(alloc: Global, line: &str) -> Result<Vec<String>, AllocError> {
    let mut all = Vec::new(alloc);
    for word in line.split_whitespace() {
        all.push(String::from_str(alloc, word)?)?;
    }
    Ok(all)
}

/// How many bytes are left, up to 9.
fn left_in(source: &mut MemSource) -> usize {
    let mut piece = [0; 9];
    source.read(&mut piece).unwrap_or(0)
}

/// What a command leaves, and makes of a folder.
pub(crate) fn outcome_of(
    alloc: Global,
    call: Call,
    folder: &mut MemFolder,
) -> Result<Outcome, AllocError> {
    let mut input = MemSource::new(call.input, call.in_input);
    let mut out = MemSink::new(alloc, call.in_out);
    let mut err = MemSink::new(alloc, call.in_err);
    let end = perform(alloc, &call.words, &mut input, &mut out, &mut err, folder);
    Ok(Outcome {
        end: format!(in alloc; "{end:?}")?,
        status: status_of(&end),
        out: out.bytes().to_vec(alloc)?,
        err: err.bytes().to_vec(alloc)?,
        left: left_in(&mut input),
    })
}
