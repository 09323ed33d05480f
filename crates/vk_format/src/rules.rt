// Why bytes are no object and no image.

ghost use Rattle.std.specs.Prelude.{◌≡◌};
ghost use Rattle.vk_format.specs.Labels.{label_of_object};
ghost use Rattle.vk_format.specs.declared.rules.ObjectFail.TheVariants.{Memory as MemoryFail};

use std::alloc::{AllocError, AllocFailed};
use vk_memory::Memory;

/// The rule that bytes break.
#[derive(Clone, Copy, PartialEq, Eq, Debug)]
pub enum ObjectRule {
    /// The first eight bytes are others.
    O1,
    /// Another version.
    O2,
    /// A target, a letter or a vector length that is none, or that does not fit the others.
    O3,
    /// The bytes end inside a field.
    O4,
    /// Bytes after the end.
    O5,
    /// Members out of order, one twice, a symbol that is not used once, a last given element 0.
    O6,
    /// A value outside its range.
    O7,
    /// The number of a symbol, function, code or entry that names none.
    O8,
    /// Code that is not valid, or not of the types and the kind that it must have.
    O9,
}

impl ObjectRule {
    /// The label of the rule.
    pub fn label(self) -> &'static str
        ensures { result.now ≡ label_of_object self }
    {
        match self {
            ObjectRule::O1 => "O1",
            ObjectRule::O2 => "O2",
            ObjectRule::O3 => "O3",
            ObjectRule::O4 => "O4",
            ObjectRule::O5 => "O5",
            ObjectRule::O6 => "O6",
            ObjectRule::O7 => "O7",
            ObjectRule::O8 => "O8",
            ObjectRule::O9 => "O9",
        }
    }
}

/// The rule that is broken first, and its place: so many bytes are before it.
#[derive(Clone, Copy, PartialEq, Eq, Debug)]
pub struct ObjectFault {
    pub at: u64,
    pub rule: ObjectRule,
}

/// Why bytes were not read.
#[derive(Clone, Copy, PartialEq, Eq, Debug)]
pub enum ObjectFail {
    Fault(ObjectFault),
    /// An allocation failed.
    Memory,
}

impl From<Memory> for ObjectFail {
    ghost from_gives = { λ _ fail. fail ≡ MemoryFail };

    fn from(_: Memory) -> ObjectFail {
        ObjectFail::Memory
    }
}

impl From<AllocError> for ObjectFail {
    ghost from_gives = { λ _ fail. fail ≡ MemoryFail };

    fn from(_: AllocError) -> ObjectFail {
        ObjectFail::Memory
    }
}

impl<T: Drop> From<AllocFailed<T>> for ObjectFail {
    ghost from_gives = { λ _ fail. fail ≡ MemoryFail };

    fn from(_: AllocFailed<T>) -> ObjectFail {
        ObjectFail::Memory
    }
}
