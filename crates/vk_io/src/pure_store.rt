//! A store in memory that fails only where a file is absent.
ghost use Rattle.std.specs.Prelude.{◌≡◌, ℕ, ◌≤◌, ◌↔◌, List, [], ◌∷◌, Some, None, IsNone, IsErr, IsErrOf, IfOk, OnOk, OnErr, length};
ghost use Rattle.vk_io.specs.Counts.{CountsFailure, Rose, SameCounts};
ghost use Rattle.vk_io.specs.Store.{SameFiles, OtherFilesStay, Fills, Starts, AppendsTo, Reads, Writes};

use crate::file_map::{FileMap, copy_from};
use crate::outside::Outside;
use crate::store::Store;
use crate::tally::Tally;
use std::alloc::Global;
use vk_memory::Memory;

/// A store that keeps its files in memory and tells them.
///
/// It fails only at a `fill` of an absent name, whose read count rises. No other count of it ever
/// rises: its write counts are all 0.
#[derive(Drop)]
pub struct PureStore {
    alloc: Global,
    files: FileMap,
    reads: Tally,
}

impl PureStore {
    ghost use Rattle.vk_io.specs.PureStore.{state_of};

    /// A store with no file.
    pub fn new(alloc: Global) -> Result<PureStore, Memory>
        ensures empty { IfOk result (λ store. (q : List ℕ) → (state_of store).file q ≡ None) }
        ensures reads { IfOk result (λ store. (q : List ℕ) → (state_of store).reads q ≡ 0) }
    {
        Ok(PureStore {
            alloc,
            files: FileMap::new(alloc),
            reads: Tally::new(alloc),
        })
    }

    /// Gives the file `name` the contents `bytes`.
    pub fn set(&mut self, name: &str, bytes: &[u8]) -> Result<(), Memory>
        ensures ok { OnOk result ((state_of self.new).file name.now ≡ Some bytes.now) }
        ensures err { OnErr result (SameFiles (state_of self.old).file (state_of self.new).file) }
        ensures others { OtherFilesStay name.now (state_of self.old).file (state_of self.new).file }
        ensures reads { SameCounts (state_of self.old).reads (state_of self.new).reads }
    {
        self.files.set(name, bytes)
    }

    /// What the trait says of a pure store is `state_of` of its module in `specs/`.
    pub fn tells_its_files(store: &PureStore)
        ensures { ⟦<PureStore as Store>⟧.state store.now ≡ state_of store.now }
    {}
}

impl Store for PureStore {
    ghost use Rattle.vk_io.specs.PureStore.{state_of};

    ghost state = { state_of };

    fn fill(&mut self, name: &str, at: u64, into: &mut [u8]) -> Result<usize, Outside>
        ensures bound { IfOk result (λ n. n ≤ length into.new) }
        ensures bytes { Fills ((state_of self.old).file name.now) at result into.new }
        ensures failed { IsErrOf result Outside.Failed → Rose ((state_of self.old).reads name.now) ((state_of self.new).reads name.now) }
        ensures stays { Reads (name.now ∷ []) (state_of self.old) (state_of self.new) }

        // It fails exactly at an absent name, and a count rises only where it answers `Failed`.
        ensures absent { IsErr result ↔ IsNone ((state_of self.old).file name.now) }
        ensures counted { CountsFailure result name.now (state_of self.old).reads (state_of self.new).reads }
    {
        match self.files.get(name) {
            Some(bytes) => Ok(copy_from(bytes, at, into)),
            None => {
                self.reads.place(self.alloc, name)?;
                self.reads.raise(name);
                Err(Outside::Failed)
            }
        }
    }

    fn start(&mut self, name: &str) -> Result<(), Outside>
        ensures started { Starts ((state_of self.old).file name.now) ((state_of self.new).file name.now) result }
        ensures failed { IsErrOf result Outside.Failed → ⊥ }
        ensures stays { Writes name.now (state_of self.old) (state_of self.new) }

        // It changes no file where it answers `Memory`.
        ensures same { OnErr result (SameFiles (state_of self.old).file (state_of self.new).file) }
    {
        self.files.set(name, &[])?;
        Ok(())
    }

    fn append(&mut self, name: &str, bytes: &[u8]) -> Result<(), Outside>
        ensures appended { AppendsTo ((state_of self.old).file name.now) ((state_of self.new).file name.now) result bytes.now }
        ensures failed { IsErrOf result Outside.Failed → ⊥ }
        ensures stays { Writes name.now (state_of self.old) (state_of self.new) }

        // It changes no file where it answers `Memory`.
        ensures same { OnErr result (SameFiles (state_of self.old).file (state_of self.new).file) }
    {
        self.files.append(name, bytes)?;
        Ok(())
    }
}
