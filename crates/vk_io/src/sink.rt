//! Sinks of bytes.
ghost use Rattle.std.specs.Prelude.{◌≡◌, IsTrue, IsErrOf};
ghost use Rattle.vk_io.specs.Counts.{Rose, next_count};
ghost use Rattle.vk_io.specs.Sink.{Puts, SinkState, Stays};

use crate::outside::Outside;

/// A place for bytes, each `put` behind the last, which may fail at any call.
///
/// A sink counts its calls and its faults. A `put` answers `Failed` only where the count of faults
/// rose, and `Memory` for want of memory, which a lean sink never has. No count falls, and a count
/// of 2^64 - 1 stays there.
pub trait Sink {
    /// Whether the sink tells its bytes, the bytes where it does, its counts, and whether it is
    /// lean.
    ghost state: { Self → SinkState };

    /// Adds all of the bytes of `piece`. Where it does not answer `Ok`, a front of them was added.
    fn put(&mut self, piece: &[u8]) -> Result<(), Outside>
        ensures put { IsTrue (state self.old).tells → Puts (state self.old).bytes (state self.new).bytes result piece.now }
        ensures failed { IsErrOf result Outside.Failed → Rose (state self.old).faults (state self.new).faults }
        ensures memory { IsTrue (state self.old).is_lean → IsErrOf result Outside.Memory → ⊥ }
        ensures calls { (state self.new).calls ≡ next_count (state self.old).calls }
        ensures stays { Stays (state self.old) (state self.new) };
}
