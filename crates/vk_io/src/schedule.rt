//! Which calls of an object in memory fail.
ghost use Rattle.std.specs.Prelude.{◌≡◌, ◌↔◌, IsTrue, IfOk, vec_items};
ghost use Rattle.vk_io.specs.Counts.{next_count};

use std::alloc::Global;
use vk_memory::Memory;

/// The numbers of the calls that are to fail, and how many calls there were.
#[derive(Drop)]
pub(crate) struct Schedule {
    failing: Vec<u64>,
    calls: u64,
}

impl Schedule {
    ghost use Rattle.vk_io.specs.Inner.Schedule.{IsNextToFail};

    pub(crate) fn new(alloc: Global, failing: &[u64]) -> Result<Schedule, Memory>
        ensures failing { IfOk result (λ schedule. schedule.failing.items ≡ failing.now) }
        ensures calls { IfOk result (λ schedule. schedule.calls ≡ 0) }
    {
        let mut numbers = Vec::new(alloc);
        numbers.extend_from_slice(failing)?;
        Ok(Schedule {
            failing: numbers,
            calls: 0,
        })
    }

    /// Counts one more call, and says whether it is to fail.
    pub(crate) fn next_fails(&mut self) -> bool
        ensures listed { IsTrue result ↔ IsNextToFail self.old }
        ensures calls { self.new.calls ≡ next_count self.old.calls }
        ensures failing { self.new.failing.items ≡ self.old.failing.items }
    {
        self.calls = self.calls.saturating_add(1);
        self.failing.contains(&self.calls)
    }
}
