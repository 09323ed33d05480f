//! Counts by name.
ghost use Rattle.std.specs.Prelude.{◌≡◌, ◌≢◌, ℕ, List, [], ◌∷◌, IsTrue, OnOk};
ghost use Rattle.vk_io.specs.Counts.{Rose, CountsOf, SameCounts, next_count};

use std::alloc::{AllocError, Global};
use std::collections::BTreeMap;

/// A count for each name, 0 for a name that was never raised. A count stays at 2^64 - 1.
#[derive(Drop)]
pub(crate) struct Tally {
    counts: BTreeMap<String, u64>,
}

impl Tally {
    ghost use Rattle.vk_io.specs.Inner.Tally.{count_of, has_place};

    pub(crate) fn new(alloc: Global) -> Tally
        ensures { (q : List ℕ) → count_of result q ≡ 0 }
    {
        Tally {
            counts: BTreeMap::new(alloc),
        }
    }

    /// Makes a place for the count of `name`, so that raising it needs no memory.
    pub(crate) fn place(&mut self, alloc: Global, name: &str) -> Result<(), AllocError>
        ensures placed { OnOk result (IsTrue (has_place self.new name.now)) }
        ensures same { SameCounts (count_of self.old) (count_of self.new) }
    {
        if !self.counts.contains_key(name) {
            let key = String::from_str(alloc, name)?;
            self.counts.insert(key, 0)?;
        }
        Ok(())
    }

    /// Raises the count of `name`.
    pub(crate) fn raise(&mut self, name: &str)
        requires { IsTrue (has_place self.old name.now) }
        ensures rose { Rose (count_of self.old name.now) (count_of self.new name.now) }
        ensures counts { CountsOf (name.now ∷ []) (count_of self.old) (count_of self.new) }
        ensures next { count_of self.new name.now ≡ next_count (count_of self.old name.now) }
        ensures others { (q : List ℕ) → q ≢ name.now → count_of self.new q ≡ count_of self.old q }
    {
        if let Some(count) = self.counts.get_mut(name) {
            *count = count.saturating_add(1);
        }
    }
}
