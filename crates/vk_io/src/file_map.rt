//! Files in memory.
ghost use Rattle.std.specs.Prelude.{◌≡◌, ◌≢◌, ℕ, ◌++◌, ◌≤◌, List, Some, None, OnOk, OnErr, length, option_map};
ghost use Rattle.vk_io.specs.Store.{SameFiles, OtherFilesStay, GivesFrom, text_of};

use std::alloc::Global;
use std::collections::BTreeMap;
use vk_memory::Memory;

/// The bytes of each file, by its name.
#[derive(Drop)]
pub(crate) struct FileMap {
    alloc: Global,
    files: BTreeMap<String, Vec<u8>>,
}

impl FileMap {
    ghost use Rattle.vk_io.specs.Inner.FileMap.{contents};

    pub(crate) fn new(alloc: Global) -> FileMap
        ensures { (q : List ℕ) → contents result q ≡ None }
    {
        FileMap {
            alloc,
            files: BTreeMap::new(alloc),
        }
    }

    /// The bytes of the file `name`, `None` where there is no such file.
    pub(crate) fn get(&self, name: &str) -> Option<&[u8]>
        ensures { option_map (λ bytes. bytes.now) result ≡ contents self.now name.now }
    {
        self.files.get(name).map(|file| file.as_slice())
    }

    /// Gives the file `name` the contents `bytes`.
    pub(crate) fn set(&mut self, name: &str, bytes: &[u8]) -> Result<(), Memory>
        ensures ok { OnOk result (contents self.new name.now ≡ Some bytes.now) }
        ensures err { OnErr result (SameFiles (contents self.old) (contents self.new)) }
        ensures others { OtherFilesStay name.now (contents self.old) (contents self.new) }
    {
        let mut file = Vec::new(self.alloc);
        file.extend_from_slice(bytes)?;
        let key = String::from_str(self.alloc, name)?;
        self.files.insert(key, file)?;
        Ok(())
    }

    /// Adds the bytes at the end of the file `name`, and makes the file where it is absent.
    pub(crate) fn append(&mut self, name: &str, bytes: &[u8]) -> Result<(), Memory>
        ensures ok { OnOk result (contents self.new name.now ≡ Some (text_of (contents self.old name.now) ++ bytes.now)) }
        ensures err { OnErr result (SameFiles (contents self.old) (contents self.new)) }
        ensures others { OtherFilesStay name.now (contents self.old) (contents self.new) }
    {
        match self.files.get_mut(name) {
            Some(file) => file.extend_from_slice(bytes)?,
            None => self.set(name, bytes)?,
        }
        Ok(())
    }
}

/// Copies the bytes from `at` on into the front of `into`, as many as there are and fit.
pub(crate) fn copy_from(bytes: &[u8], at: u64, into: &mut [u8]) -> usize
    ensures bound { result ≤ length into.new }
    ensures gives { GivesFrom bytes.now at result into.new }
{
    let start = bytes.len().min(at as usize);
    let rest = &bytes[start..];
    let count = rest.len().min(into.len());
    into[..count].copy_from_slice(&rest[..count]);
    count
}
