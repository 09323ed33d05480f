// Why a unit is not accepted.

ghost use Rattle.std.specs.Prelude.{◌≡◌};

use vk_memory::Memory;
use vk_unit_rules::UnitRule;

/// Why a unit is not accepted.
#[derive(Clone, Copy, PartialEq, Eq, Debug)]
pub enum CheckFail {
    /// The first rule that is broken, the line that is told, from 1, and the number of the directive that is told, from 1; 0 where
    /// none is concerned.
    Rule {
        line: u32,
        directive: u32,
        rule: UnitRule,
    },
    /// There was no memory left.
    Memory,
}

impl From<Memory> for CheckFail {
    ghost use Rattle.vk_rules.specs.declared.fail.CheckFail.{CheckFail};

    ghost from_gives = { λ _ e. e ≡ CheckFail.Memory };

    fn from(_memory: Memory) -> CheckFail {
        CheckFail::Memory
    }
}
