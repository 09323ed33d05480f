// Faults of a unit.

use vk_unit_rules::UnitRule;

/// A rule that is broken: the number of the token at its place, the line that is told, and the number of the directive
/// that is told, 0 where none is concerned.
#[derive(Clone, Copy, PartialEq, Eq, Debug)]
pub struct Fault {
    pub place: u32,
    pub rule: UnitRule,
    pub line: u32,
    pub directive: u32,
}
