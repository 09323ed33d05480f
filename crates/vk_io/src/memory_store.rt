//! A store in memory, whose faults are chosen beforehand.
ghost use Rattle.std.specs.Prelude.{◌≡◌, ◌≢◌, ℕ, ◌≤◌, ◌⊎◌, List, [], ◌∷◌, Some, None, IsNone, IsErr, IsErrOf, IfOk, OnOk, OnErr, length};
ghost use Rattle.vk_io.specs.Counts.{CountsFailure, Rose, SameCounts, next_count};
ghost use Rattle.vk_io.specs.Inner.Schedule.{IsListed};
ghost use Rattle.vk_io.specs.Store.{SameFiles, OtherFilesStay, Fills, Starts, AppendsTo, Reads, Writes};

use crate::file_map::{FileMap, copy_from};
use crate::outside::Outside;
use crate::schedule::Schedule;
use crate::store::Store;
use crate::tally::Tally;
use std::alloc::Global;
use vk_memory::Memory;

/// A store that keeps its files in memory and tells them.
///
/// Its calls are numbered from 1 on, those of all names together. A call whose number is in the
/// list that `new` was given fails and changes no file.
#[derive(Drop)]
pub struct MemStore {
    alloc: Global,
    files: FileMap,
    reads: Tally,
    writes: Tally,
    schedule: Schedule,
}

impl MemStore {
    ghost use Rattle.vk_io.specs.MemStore.{state_of, failing_of, calls_of};

    /// A store with no file, whose calls of the numbers `failing` are to fail.
    pub fn new(alloc: Global, failing: &[u64]) -> Result<MemStore, Memory>
        ensures empty { IfOk result (λ store. (q : List ℕ) → (state_of store).file q ≡ None) }
        ensures failing { IfOk result (λ store. failing_of store ≡ failing.now) }
        ensures calls { IfOk result (λ store. calls_of store ≡ 0) }
        ensures reads { IfOk result (λ store. (q : List ℕ) → (state_of store).reads q ≡ 0) }
        ensures writes { IfOk result (λ store. (q : List ℕ) → (state_of store).writes q ≡ 0) }
    {
        Ok(MemStore {
            alloc,
            files: FileMap::new(alloc),
            reads: Tally::new(alloc),
            writes: Tally::new(alloc),
            schedule: Schedule::new(alloc, failing)?,
        })
    }

    /// Gives the file `name` the contents `bytes`. This is no numbered call.
    pub fn set(&mut self, name: &str, bytes: &[u8]) -> Result<(), Memory>
        ensures ok { OnOk result ((state_of self.new).file name.now ≡ Some bytes.now) }
        ensures err { OnErr result (SameFiles (state_of self.old).file (state_of self.new).file) }
        ensures others { OtherFilesStay name.now (state_of self.old).file (state_of self.new).file }
        ensures reads { SameCounts (state_of self.old).reads (state_of self.new).reads }
        ensures writes { SameCounts (state_of self.old).writes (state_of self.new).writes }
        ensures failing { failing_of self.new ≡ failing_of self.old }
        ensures calls { calls_of self.new ≡ calls_of self.old }
    {
        self.files.set(name, bytes)
    }

    /// What the trait says of a store in memory is `state_of` of its module in `specs/`.
    pub fn tells_its_files(store: &MemStore)
        ensures { ⟦<MemStore as Store>⟧.state store.now ≡ state_of store.now }
    {}
}

impl Store for MemStore {
    ghost use Rattle.vk_io.specs.MemStore.{state_of, failing_of, calls_of};

    ghost state = { state_of };

    fn fill(&mut self, name: &str, at: u64, into: &mut [u8]) -> Result<usize, Outside>
        ensures bound { IfOk result (λ n. n ≤ length into.new) }
        ensures bytes { Fills ((state_of self.old).file name.now) at result into.new }
        ensures failed { IsErrOf result Outside.Failed → Rose ((state_of self.old).reads name.now) ((state_of self.new).reads name.now) }
        ensures stays { Reads (name.now ∷ []) (state_of self.old) (state_of self.new) }

        // It fails where its number is listed, and changes no file where it fails.
        ensures listed { IsListed (failing_of self.old) (calls_of self.old) → IsErr result }
        ensures unlisted { IsErrOf result Outside.Failed →
            IsListed (failing_of self.old) (calls_of self.old) ⊎ IsNone ((state_of self.old).file name.now) }
        ensures counted { CountsFailure result name.now (state_of self.old).reads (state_of self.new).reads }
        ensures failing { failing_of self.new ≡ failing_of self.old }
        ensures calls { calls_of self.new ≡ next_count (calls_of self.old) }
    {
        let fails = self.schedule.next_fails();
        self.reads.place(self.alloc, name)?;
        match self.files.get(name) {
            Some(bytes) if !fails => Ok(copy_from(bytes, at, into)),
            _ => {
                self.reads.raise(name);
                Err(Outside::Failed)
            }
        }
    }

    fn start(&mut self, name: &str) -> Result<(), Outside>
        ensures started { Starts ((state_of self.old).file name.now) ((state_of self.new).file name.now) result }
        ensures failed { IsErrOf result Outside.Failed → Rose ((state_of self.old).writes name.now) ((state_of self.new).writes name.now) }
        ensures stays { Writes name.now (state_of self.old) (state_of self.new) }

        // It fails where its number is listed, and changes no file where it fails.
        ensures listed { IsListed (failing_of self.old) (calls_of self.old) → IsErr result }
        ensures unlisted { IsErrOf result Outside.Failed → IsListed (failing_of self.old) (calls_of self.old) }
        ensures counted { CountsFailure result name.now (state_of self.old).writes (state_of self.new).writes }
        ensures same { OnErr result (SameFiles (state_of self.old).file (state_of self.new).file) }
        ensures failing { failing_of self.new ≡ failing_of self.old }
        ensures calls { calls_of self.new ≡ next_count (calls_of self.old) }
    {
        let fails = self.schedule.next_fails();
        self.writes.place(self.alloc, name)?;
        if fails {
            self.writes.raise(name);
            return Err(Outside::Failed);
        }
        self.files.set(name, &[])?;
        Ok(())
    }

    fn append(&mut self, name: &str, bytes: &[u8]) -> Result<(), Outside>
        ensures appended { AppendsTo ((state_of self.old).file name.now) ((state_of self.new).file name.now) result bytes.now }
        ensures failed { IsErrOf result Outside.Failed → Rose ((state_of self.old).writes name.now) ((state_of self.new).writes name.now) }
        ensures stays { Writes name.now (state_of self.old) (state_of self.new) }

        // It fails where its number is listed, and changes no file where it fails.
        ensures listed { IsListed (failing_of self.old) (calls_of self.old) → IsErr result }
        ensures unlisted { IsErrOf result Outside.Failed → IsListed (failing_of self.old) (calls_of self.old) }
        ensures counted { CountsFailure result name.now (state_of self.old).writes (state_of self.new).writes }
        ensures same { OnErr result (SameFiles (state_of self.old).file (state_of self.new).file) }
        ensures failing { failing_of self.new ≡ failing_of self.old }
        ensures calls { calls_of self.new ≡ next_count (calls_of self.old) }
    {
        let fails = self.schedule.next_fails();
        self.writes.place(self.alloc, name)?;
        if fails {
            self.writes.raise(name);
            return Err(Outside::Failed);
        }
        self.files.append(name, bytes)?;
        Ok(())
    }
}
