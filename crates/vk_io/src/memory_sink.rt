//! A sink in memory, whose faults are chosen beforehand.
ghost use Rattle.std.specs.Prelude.{◌≡◌, [], IsErrOf, IfOk, OnErr};
ghost use Rattle.vk_io.specs.Counts.{CountsFault, Rose, next_count};
ghost use Rattle.vk_io.specs.Inner.Schedule.{IsListed};
ghost use Rattle.vk_io.specs.Sink.{Puts, Stays};

use crate::outside::Outside;
use crate::schedule::Schedule;
use crate::sink::Sink;
use std::alloc::Global;
use vk_memory::Memory;

/// A sink that keeps its bytes in memory and tells them.
///
/// Its calls of `put` are numbered from 1 on. A call whose number is in the list that `new` was
/// given fails and adds no byte. The sink is not lean.
#[derive(Drop)]
pub struct MemSink {
    bytes: Vec<u8>,
    faults: u64,
    schedule: Schedule,
}

impl MemSink {
    ghost use Rattle.vk_io.specs.MemSink.{state_of, failing_of};

    /// A sink with no bytes, whose calls of the numbers `failing` are to fail.
    pub fn new(alloc: Global, failing: &[u64]) -> Result<MemSink, Memory>
        ensures empty { IfOk result (λ sink. (state_of sink).bytes ≡ []) }
        ensures faults { IfOk result (λ sink. (state_of sink).faults ≡ 0) }
        ensures failing { IfOk result (λ sink. failing_of sink ≡ failing.now) }
        ensures calls { IfOk result (λ sink. (state_of sink).calls ≡ 0) }
    {
        Ok(MemSink {
            bytes: Vec::new(alloc),
            faults: 0,
            schedule: Schedule::new(alloc, failing)?,
        })
    }

    /// The bytes so far.
    pub fn bytes(&self) -> &[u8]
        ensures { result.now ≡ (state_of self.now).bytes }
    {
        &self.bytes
    }

    /// What the trait says of a sink in memory is `state_of` of its module in `specs/`.
    pub fn tells_its_bytes(sink: &MemSink)
        ensures { ⟦<MemSink as Sink>⟧.state sink.now ≡ state_of sink.now }
    {}
}

impl Sink for MemSink {
    ghost use Rattle.vk_io.specs.MemSink.{state_of, failing_of};

    ghost state = { state_of };

    fn put(&mut self, piece: &[u8]) -> Result<(), Outside>
        ensures put { Puts (state_of self.old).bytes (state_of self.new).bytes result piece.now }
        ensures failed { IsErrOf result Outside.Failed → Rose (state_of self.old).faults (state_of self.new).faults }
        ensures calls { (state_of self.new).calls ≡ next_count (state_of self.old).calls }
        ensures stays { Stays (state_of self.old) (state_of self.new) }

        // It fails exactly at the listed calls, and adds nothing where it fails.
        ensures listed { IsListed (failing_of self.old) (state_of self.old).calls → IsErrOf result Outside.Failed }
        ensures unlisted { IsErrOf result Outside.Failed → IsListed (failing_of self.old) (state_of self.old).calls }
        ensures counted { CountsFault result (state_of self.old).faults (state_of self.new).faults }
        ensures err { OnErr result ((state_of self.new).bytes ≡ (state_of self.old).bytes) }
        ensures failing { failing_of self.new ≡ failing_of self.old }
    {
        if self.schedule.next_fails() {
            self.faults = self.faults.saturating_add(1);
            return Err(Outside::Failed);
        }
        self.bytes.extend_from_slice(piece)?;
        Ok(())
    }
}
