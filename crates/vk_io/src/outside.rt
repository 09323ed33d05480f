//! How a call on the world outside fails.
ghost use Rattle.std.specs.Prelude.{◌≡◌};

use std::alloc::{AllocError, AllocFailed};
use vk_memory::Memory;

/// Why a call of a store or a sink did not do its work.
#[derive(Clone, Copy, Debug, PartialEq, Eq)]
pub enum Outside {
    /// The outside failed, and the count of its faults rose.
    Failed,
    /// There was no memory left.
    Memory,
}

impl From<Memory> for Outside {
    ghost use Rattle.vk_io.specs.declared.outside.Outside.{Outside};

    ghost from_gives = { λ _ e. e ≡ Outside.Memory };

    fn from(_memory: Memory) -> Outside {
        Outside::Memory
    }
}

impl From<AllocError> for Outside {
    ghost use Rattle.vk_io.specs.declared.outside.Outside.{Outside};

    ghost from_gives = { λ _ e. e ≡ Outside.Memory };

    fn from(_error: AllocError) -> Outside {
        Outside::Memory
    }
}

impl<T: Drop> From<AllocFailed<T>> for Outside {
    ghost use Rattle.vk_io.specs.declared.outside.Outside.{Outside};

    ghost from_gives = { λ _ e. e ≡ Outside.Memory };

    fn from(_error: AllocFailed<T>) -> Outside {
        Outside::Memory
    }
}
