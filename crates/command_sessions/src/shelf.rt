//! The files of a session that lie ready.

use crate::bytes::{expect_text, push_hex};
use crate::stops::{Stop, told};
use std::alloc::Global;

/// Files by their names. Of two of one name the last counts.
#[derive(Drop)]
pub(crate) struct Shelf {
    alloc: Global,
    files: Vec<(String, Vec<u8>)>,
}

impl Shelf {
    pub(crate) fn new(alloc: Global) -> Shelf {
        Shelf {
            alloc,
            files: Vec::new(alloc),
        }
    }

    /// Puts a file there.
    pub(crate) fn put(&mut self, name: &str, bytes: Vec<u8>) -> Result<(), Stop> {
        let name = String::from_str(self.alloc, name)?;
        self.files.push((name, bytes))?;
        Ok(())
    }

    /// Puts a text there.
    pub(crate) fn put_text(&mut self, name: &str, text: &str) -> Result<(), Stop> {
        let bytes = text.as_bytes().to_vec(self.alloc)?;
        self.put(name, bytes)
    }

    /// The bytes of a file.
    pub(crate) fn get(&self, name: &str) -> Result<&[u8], Stop> {
        let mut found = None;
        for (own, bytes) in &self.files {
            if own.as_str() == name {
                found = Some(bytes.as_slice());
            }
        }
        match found {
            Some(bytes) => Ok(bytes),
            None => Err(told(self.alloc, "no file lies ready as", name)),
        }
    }

    /// The bytes of a file as an own value.
    pub(crate) fn copy(&self, name: &str) -> Result<Vec<u8>, Stop> {
        Ok(self.get(name)?.to_vec(self.alloc)?)
    }

    /// Makes a file of others.
    pub(crate) fn join(&mut self, name: &str, parts: &str) -> Result<(), Stop> {
        let mut whole = Vec::new(self.alloc);
        for part in parts.split_whitespace() {
            self.add_part(&mut whole, part)?;
        }
        self.put(name, whole)
    }

    /// Puts a file, or so many of it, at the end.
    fn add_part(&self, whole: &mut Vec<u8>, part: &str) -> Result<(), Stop> {
        let (count, name) = part.split_once('*').unwrap_or(("1", part));
        let Ok(count) = count.parse::<u32>() else {
            return Err(told(self.alloc, "no number", count));
        };
        let bytes = self.get(name)?;
        for _ in 0..count {
            whole.extend_from_slice(bytes)?;
        }
        Ok(())
    }

    /// Changes bytes of a file.
    pub(crate) fn change(&mut self, name: &str, place: usize, numbers: &str) -> Result<(), Stop> {
        let mut piece = Vec::new(self.alloc);
        push_hex(self.alloc, &mut piece, numbers)?;
        let old = self.get(name)?;
        let (Some(front), Some(rest)) = (old.get(..place), old.get(place..)) else {
            return Err(told(self.alloc, "too few bytes are in", name));
        };
        let Some(behind) = rest.get(piece.len()..) else {
            return Err(told(self.alloc, "too few bytes are in", name));
        };
        let mut whole = front.to_vec(self.alloc)?;
        whole.extend_from_slice(&piece)?;
        whole.extend_from_slice(behind)?;
        self.put(name, whole)
    }

    /// Cuts a file.
    pub(crate) fn cut(&mut self, name: &str, count: usize) -> Result<(), Stop> {
        let Some(front) = self.get(name)?.get(..count) else {
            return Err(told(self.alloc, "too few bytes are in", name));
        };
        let front = front.to_vec(self.alloc)?;
        self.put(name, front)
    }

    /// Asserts how long a file is.
    pub(crate) fn expect_size(&self, name: &str, count: usize) -> Result<(), Stop> {
        let alloc = self.alloc;
        let came = self.get(name)?.len();
        let expected = format!(in alloc; "{count}")?;
        let came = format!(in alloc; "{came}")?;
        expect_text(alloc, "size", expected.as_str(), came.as_str())
    }
}
