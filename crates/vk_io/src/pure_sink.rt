//! A sink in memory without faults.
ghost use Rattle.std.specs.Prelude.{◌≡◌, [], IsErrOf, IfOk, OnErr};
ghost use Rattle.vk_io.specs.Counts.{next_count};
ghost use Rattle.vk_io.specs.Sink.{Puts, Stays};

use crate::outside::Outside;
use crate::sink::Sink;
use std::alloc::Global;
use vk_memory::Memory;

/// A sink that keeps its bytes in memory and tells them.
///
/// It has no faults, so that count is always 0. It is not lean.
#[derive(Drop)]
pub struct PureSink {
    bytes: Vec<u8>,
    calls: u64,
}

impl PureSink {
    ghost use Rattle.vk_io.specs.PureSink.{state_of};

    /// A sink with no bytes.
    pub fn new(alloc: Global) -> Result<PureSink, Memory>
        ensures empty { IfOk result (λ sink. (state_of sink).bytes ≡ []) }
        ensures calls { IfOk result (λ sink. (state_of sink).calls ≡ 0) }
    {
        Ok(PureSink {
            bytes: Vec::new(alloc),
            calls: 0,
        })
    }

    /// The bytes so far.
    pub fn bytes(&self) -> &[u8]
        ensures { result.now ≡ (state_of self.now).bytes }
    {
        &self.bytes
    }

    /// What the trait says of a pure sink is `state_of` of its module in `specs/`.
    pub fn tells_its_bytes(sink: &PureSink)
        ensures { ⟦<PureSink as Sink>⟧.state sink.now ≡ state_of sink.now }
    {}
}

impl Sink for PureSink {
    ghost use Rattle.vk_io.specs.PureSink.{state_of};

    ghost state = { state_of };

    fn put(&mut self, piece: &[u8]) -> Result<(), Outside>
        ensures put { Puts (state_of self.old).bytes (state_of self.new).bytes result piece.now }
        ensures failed { IsErrOf result Outside.Failed → ⊥ }
        ensures calls { (state_of self.new).calls ≡ next_count (state_of self.old).calls }
        ensures stays { Stays (state_of self.old) (state_of self.new) }

        // It adds nothing where it answers `Memory`.
        ensures err { OnErr result ((state_of self.new).bytes ≡ (state_of self.old).bytes) }
    {
        self.calls = self.calls.saturating_add(1);
        self.bytes.extend_from_slice(piece)?;
        Ok(())
    }
}
