// Files in memory as the changes that made them.
ghost use Rattle.std.specs.Prelude.{◌≡◌, None, option_copied, option_map, OnErr, OnOk, IfErr, IfOk};
ghost use Rattle.cov_outside.specs.Changes.{changed, files_after};

use crate::faults::CallFault;
use std::alloc::Global;

/// One change: there is no file `gone`, and then `name` has these bytes, or no file.
#[derive(Drop)]
pub(crate) struct Change {
    name: String,
    bytes: Option<Vec<u8>>,
    gone: String,
}

/// The changes since there was no file.
#[derive(Drop)]
pub(crate) struct ChangeLog {
    alloc: Global,
    changes: Vec<Change>,
}

impl ChangeLog {
    pub(crate) fn new(alloc: Global) -> ChangeLog
        ensures { files_after result.changes.items ≡ (λ name. None) }
    {
        ChangeLog {
            alloc,
            changes: Vec::new(alloc),
        }
    }

    fn get(&self, name: &str) -> Option<&[u8]>
        ensures { option_copied result ≡ files_after self.now.changes.items name.now }
    {
        let mut found = None;
        for change in &self.changes {
            if change.name.as_str() == name {
                found = match &change.bytes {
                    Some(bytes) => Some(bytes.as_slice()),
                    None => None,
                };
            } else if change.gone.as_str() == name {
                found = None;
            }
        }
        found
    }

    /// A copy of the bytes under the name, where it has a file.
    pub(crate) fn copy(&self, name: &str) -> Result<Option<Vec<u8>>, CallFault>
        ensures ok { IfOk result (λ found. option_map (λ v. v.items) found
            ≡ files_after self.now.changes.items name.now) }
        ensures fault { IfErr result (λ fault. fault ≡ CallFault.NoMemory) }
    {
        match self.get(name) {
            Some(bytes) => Ok(Some(bytes.to_vec(self.alloc)?)),
            None => Ok(None),
        }
    }

    /// Does one change, if memory is found.
    pub(crate) fn change(
        &mut self,
        name: &str,
        bytes: Option<Vec<u8>>,
        gone: &str,
    ) -> Result<(), CallFault>
        ensures ok { OnOk result
            (files_after self.new.changes.items ≡ changed name.now
            (option_map (λ v. v.items) bytes) gone.now (files_after self.old.changes.items)) }
        ensures err { OnErr result (self.new.changes.items ≡ self.old.changes.items) }
        ensures fault { IfErr result (λ fault. fault ≡ CallFault.NoMemory) }
    {
        let name = String::from_str(self.alloc, name)?;
        let gone = String::from_str(self.alloc, gone)?;
        self.changes.push(Change { name, bytes, gone })?;
        Ok(())
    }
}
