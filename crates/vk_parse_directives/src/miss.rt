// Why no clause of a form was read.

ghost use Rattle.std.specs.Prelude.{◌≡◌};
ghost use Rattle.vk_parse_directives.specs.declared.miss.Miss.TheVariants.{Memory as MemoryMiss};

use std::alloc::{AllocError, AllocFailed};

/// Why no clause of a form was read.
#[derive(Clone, Copy, PartialEq, Eq, Debug)]
pub enum Miss {
    /// The tokens are of no such form.
    NoForm,
    /// An allocation failed.
    Memory,
}

impl From<AllocError> for Miss {
    ghost from_gives = { λ _ m. m ≡ MemoryMiss };

    fn from(_: AllocError) -> Miss {
        Miss::Memory
    }
}

impl<T: Drop> From<AllocFailed<T>> for Miss {
    ghost from_gives = { λ _ m. m ≡ MemoryMiss };

    fn from(_: AllocFailed<T>) -> Miss {
        Miss::Memory
    }
}
