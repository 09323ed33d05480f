//! Stores of files.
ghost use Rattle.std.specs.Prelude.{◌≡◌, ◌≤◌, [], ◌∷◌, IsTrue, IsErrOf, IfOk, length};
ghost use Rattle.vk_io.specs.Counts.{Rose};
ghost use Rattle.vk_io.specs.Store.{StoreState, Fills, Starts, AppendsTo, Reads, Writes};

use crate::outside::Outside;

/// Files by name, which calls read and write, and which may fail at any call.
///
/// For each name a store counts the faults of reading and those of writing. A call answers
/// `Failed` only where such a count of its name rose, and `Memory` for want of memory. No count
/// falls, and a count of 2^64 - 1 stays there. In a sound store no read count rises of a name that
/// has a file.
pub trait Store {
    /// Whether the store tells its files, the files where it does, the counts of faults, and
    /// whether it is sound.
    ghost state: { Self → StoreState };

    /// Reads bytes of the file from the offset `at` on into the front of `into`, and answers how
    /// many: at least one where `into` has room and the file goes on behind `at`, and 0 at the
    /// file's end and past it. Reading an absent file fails.
    fn fill(&mut self, name: &str, at: u64, into: &mut [u8]) -> Result<usize, Outside>
        ensures bound { IfOk result (λ n. n ≤ length into.new) }
        ensures bytes { IsTrue (state self.old).tells → Fills ((state self.old).file name.now) at result into.new }
        ensures failed { IsErrOf result Outside.Failed → Rose ((state self.old).reads name.now) ((state self.new).reads name.now) }
        ensures stays { Reads (name.now ∷ []) (state self.old) (state self.new) };

    /// Makes the file an empty one. Where it does not answer `Ok`, the file is as it was or empty.
    fn start(&mut self, name: &str) -> Result<(), Outside>
        ensures started { IsTrue (state self.old).tells →
            Starts ((state self.old).file name.now) ((state self.new).file name.now) result }
        ensures failed { IsErrOf result Outside.Failed → Rose ((state self.old).writes name.now) ((state self.new).writes name.now) }
        ensures stays { Writes name.now (state self.old) (state self.new) };

    /// Adds the bytes at the file's end, and makes the file where it is absent. Where it does not
    /// answer `Ok`, a front of the bytes was added, or an absent file is still absent.
    fn append(&mut self, name: &str, bytes: &[u8]) -> Result<(), Outside>
        ensures appended { IsTrue (state self.old).tells →
            AppendsTo ((state self.old).file name.now) ((state self.new).file name.now) result bytes.now }
        ensures failed { IsErrOf result Outside.Failed → Rose ((state self.old).writes name.now) ((state self.new).writes name.now) }
        ensures stays { Writes name.now (state self.old) (state self.new) };
}
