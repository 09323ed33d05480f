// The rules of a unit, and why one was not read.

ghost use Rattle.std.specs.Prelude.{◌≡◌};
ghost use Rattle.vk_unit_rules.specs.Labels.{label_of_unit};
ghost use Rattle.vk_unit_rules.specs.declared.rules.UnitFail.TheVariants.{Memory as MemoryFail};

use std::alloc::{AllocError, AllocFailed};
use vk_memory::Memory;

/// The rule that a unit breaks: `C` of the language, `D` of directives on functions, `S` of simd loops.
#[derive(Clone, Copy, PartialEq, Eq, Debug)]
pub enum UnitRule {
    C1,
    C2,
    C3,
    C4,
    C5,
    C6,
    C7,
    C8,
    C9,
    C10,
    C11,
    C12,
    C13,
    C14,
    C15,
    C16,
    C17,
    C18,
    D1,
    D2,
    D3,
    D4,
    D5,
    D6,
    D7,
    D8,
    D9,
    D10,
    D11,
    D12,
    D13,
    D14,
    D15,
    D16,
    D17,
    D18,
    D19,
    S1,
    S2,
    S3,
    S4,
    S5,
    S6,
    S7,
}

impl UnitRule {
    /// The label of the rule.
    pub fn label(self) -> &'static str
        ensures { result.now ≡ label_of_unit self }
    {
        match self {
            UnitRule::C1 => "C1",
            UnitRule::C2 => "C2",
            UnitRule::C3 => "C3",
            UnitRule::C4 => "C4",
            UnitRule::C5 => "C5",
            UnitRule::C6 => "C6",
            UnitRule::C7 => "C7",
            UnitRule::C8 => "C8",
            UnitRule::C9 => "C9",
            UnitRule::C10 => "C10",
            UnitRule::C11 => "C11",
            UnitRule::C12 => "C12",
            UnitRule::C13 => "C13",
            UnitRule::C14 => "C14",
            UnitRule::C15 => "C15",
            UnitRule::C16 => "C16",
            UnitRule::C17 => "C17",
            UnitRule::C18 => "C18",
            UnitRule::D1 => "D1",
            UnitRule::D2 => "D2",
            UnitRule::D3 => "D3",
            UnitRule::D4 => "D4",
            UnitRule::D5 => "D5",
            UnitRule::D6 => "D6",
            UnitRule::D7 => "D7",
            UnitRule::D8 => "D8",
            UnitRule::D9 => "D9",
            UnitRule::D10 => "D10",
            UnitRule::D11 => "D11",
            UnitRule::D12 => "D12",
            UnitRule::D13 => "D13",
            UnitRule::D14 => "D14",
            UnitRule::D15 => "D15",
            UnitRule::D16 => "D16",
            UnitRule::D17 => "D17",
            UnitRule::D18 => "D18",
            UnitRule::D19 => "D19",
            UnitRule::S1 => "S1",
            UnitRule::S2 => "S2",
            UnitRule::S3 => "S3",
            UnitRule::S4 => "S4",
            UnitRule::S5 => "S5",
            UnitRule::S6 => "S6",
            UnitRule::S7 => "S7",
        }
    }
}

/// Why no tokens or no tree were read.
#[derive(Clone, Copy, PartialEq, Eq, Debug)]
pub enum UnitFail {
    /// The rule that is broken, and the line of its place.
    Fault { line: u32, rule: UnitRule },
    /// An allocation failed.
    Memory,
}

impl From<Memory> for UnitFail {
    ghost from_gives = { λ _ fail. fail ≡ MemoryFail };

    fn from(_: Memory) -> UnitFail {
        UnitFail::Memory
    }
}

impl From<AllocError> for UnitFail {
    ghost from_gives = { λ _ fail. fail ≡ MemoryFail };

    fn from(_: AllocError) -> UnitFail {
        UnitFail::Memory
    }
}

impl<T: Drop> From<AllocFailed<T>> for UnitFail {
    ghost from_gives = { λ _ fail. fail ≡ MemoryFail };

    fn from(_: AllocFailed<T>) -> UnitFail {
        UnitFail::Memory
    }
}
