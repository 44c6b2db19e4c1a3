//! What came of a command, and what must come.

use crate::bytes::{differ, expect_bytes, expect_front, expect_text};
use crate::calls::Outcome;
use crate::stops::{Stop, told};
use std::alloc::Global;
use std::str;

/// What a command left, and what the session has said of its outputs; whether more output is there
/// that the session doesn't show, and whether its answer was told.
#[derive(Drop)]
pub(crate) struct Step {
    alloc: Global,
    came: Outcome,
    out: Vec<u8>,
    err: Vec<u8>,
    more: bool,
    told: bool,
}

impl Step {
    pub(crate) fn new(alloc: Global, came: Outcome) -> Step {
        Step {
            alloc,
            came,
            out: Vec::new(alloc),
            err: Vec::new(alloc),
            more: false,
            told: false,
        }
    }

    /// Asserts that the session says no more of outputs once the answer is told.
    fn expect_open(&self) -> Result<(), Stop> {
        if !self.told {
            return Ok(());
        }
        let came = self.came.end.as_str();
        Err(told(self.alloc, "the answer is told already:", came))
    }

    /// Takes note of output that must come.
    pub(crate) fn expect_out(&mut self, bytes: &[u8]) -> Result<(), Stop> {
        self.expect_open()?;
        if self.more {
            return Err(told(self.alloc, "output stands behind", "more"));
        }
        Ok(self.out.extend_from_slice(bytes)?)
    }

    /// Takes note of a line of output, which has no newline where it ends with `\`.
    pub(crate) fn expect_line(&mut self, text: &str) -> Result<(), Stop> {
        match text.strip_suffix('\\') {
            Some(front) => self.expect_out(front.as_bytes()),
            None => {
                self.expect_out(text.as_bytes())?;
                self.expect_out(b"\n")
            }
        }
    }

    /// Takes note of a line of the error output.
    pub(crate) fn expect_error(&mut self, text: &str) -> Result<(), Stop> {
        self.expect_open()?;
        self.err.extend_from_slice(text.as_bytes())?;
        Ok(self.err.extend_from_slice(b"\n")?)
    }

    /// Takes note of more output.
    pub(crate) fn expect_more(&mut self) -> Result<(), Stop> {
        self.expect_open()?;
        self.more = true;
        Ok(())
    }

    /// Asserts what came.
    pub(crate) fn expect_answer(&mut self, status: &str, end: &str) -> Result<(), Stop> {
        let alloc = self.alloc;
        self.expect_open()?;
        self.told = true;
        expect_text(alloc, "answer", end, self.came.end.as_str())?;
        let came = self.came.status;
        let came = format!(in alloc; "{came}")?;
        expect_text(alloc, "status", status, came.as_str())?;
        expect_bytes(alloc, "error output", &self.err, &self.came.err)?;
        self.expect_output()
    }

    /// Asserts what came on the output.
    fn expect_output(&self) -> Result<(), Stop> {
        if !self.more {
            return expect_bytes(self.alloc, "output", &self.out, &self.came.out);
        }
        expect_front(self.alloc, "output", &self.out, &self.came.out)?;
        if self.came.out.len() == self.out.len() {
            return Err(differ(self.alloc, "more output", &self.out, &self.came.out));
        }
        Ok(())
    }

    /// Asserts that the answer was told.
    pub(crate) fn expect_told(&self) -> Result<(), Stop> {
        if self.told {
            return Ok(());
        }
        let came = self.came.end.as_str();
        Err(told(self.alloc, "the session doesn't tell the answer", came))
    }

    /// Asserts that a text stands in the output.
    pub(crate) fn expect_piece(&self, piece: &[u8]) -> Result<(), Stop> {
        let (Ok(out), Ok(text)) = (str::from_utf8(&self.came.out), str::from_utf8(piece)) else {
            return Err(told(self.alloc, "no text is", "the output"));
        };
        if out.contains(text) {
            return Ok(());
        }
        Err(told(self.alloc, "the output doesn't hold", text))
    }

    /// Asserts how many bytes of standard input were left.
    pub(crate) fn expect_left(&self, count: &str) -> Result<(), Stop> {
        let alloc = self.alloc;
        let left = self.came.left;
        let left = format!(in alloc; "{left}")?;
        expect_text(alloc, "bytes left of standard input", count, left.as_str())
    }
}
