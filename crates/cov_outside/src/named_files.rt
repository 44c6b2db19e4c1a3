// Files by name.
ghost use Rattle.std.specs.Prelude.{◌≡◌, ◌≤◌, length, option_copied, ◌≢◌, Err, IfOk, IfSome, Some};
ghost use Rattle.cov_outside.specs.Stores.{last_file, plain_files};
ghost use Rattle.cov_outside.specs.Outside.{Loads, Replaces};

use crate::faults::{LoadFault, SinkFault};
use std::alloc::Global;
use std::marker::Model;

/// Names with their bytes. Of two files of one name the last counts.
#[derive(Drop)]
pub(crate) struct NamedFiles {
    alloc: Global,
    files: Vec<(String, Vec<u8>)>,
}

impl Model for NamedFiles {
    ghost use Rattle.std.specs.Prelude.{List, ℕ};
    ghost use Rattle.cov_outside.specs.Stores.{plain_files};

    ghost Value = { List (List ℕ × List ℕ) };

    ghost view = { λ n. plain_files n.files.items };
}

impl NamedFiles {
    pub(crate) fn new(alloc: Global, files: Vec<(String, Vec<u8>)>) -> NamedFiles
        ensures { result ≡ plain_files files.items }
    {
        NamedFiles { alloc, files }
    }

    pub(crate) fn get(&self, name: &str) -> Option<&[u8]>
        ensures { option_copied result ≡ last_file self.now name.now }
    {
        let mut found = None;
        for (own, bytes) in &self.files {
            if own.as_str() == name {
                found = Some(bytes.as_slice());
            }
        }
        found
    }

    /// The bytes under the name, at most `limit` of them.
    pub(crate) fn load(&self, name: &str, limit: usize) -> Result<Option<Vec<u8>>, LoadFault>
        ensures limit { IfOk result (λ found. IfSome found (λ bytes. length bytes.items ≤ limit)) }
        ensures loads { Loads (Some (last_file self.now)) name.now limit result }
        ensures fault { result ≢ Err LoadFault.Failed }
    {
        let Some(bytes) = self.get(name) else {
            return Ok(None);
        };
        if limit < bytes.len() {
            return Err(LoadFault::TooLong);
        }
        Ok(Some(bytes.to_vec(self.alloc)?))
    }

    /// Puts the bytes under the name.
    pub(crate) fn replace(&mut self, name: &str, bytes: &[u8]) -> Result<(), SinkFault>
        ensures replaces { Replaces (Some (last_file self.old)) (Some (last_file self.new)) name.now
            bytes.now
            result }
        ensures fault { result ≢ Err SinkFault.Failed }
    {
        let name = String::from_str(self.alloc, name)?;
        let bytes = bytes.to_vec(self.alloc)?;
        self.files.push((name, bytes))?;
        Ok(())
    }
}
