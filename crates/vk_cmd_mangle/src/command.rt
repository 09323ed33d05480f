// The command over a store and a sink.

ghost use Rattle.std.specs.Prelude.{◌≡◌, ◌≤◌, ℕ, List, length, map, IfOk, IsErrOf};
ghost use Rattle.vk_unit_rules.specs.declared.rules.UnitRule.{UnitRule as RuleOf};
ghost use Rattle.vk_accept.specs.Accepted.{HasSimdLine, IsUnitRefused};
ghost use Rattle.vk_cmd_mangle.specs.Mangle.{IsNamed, MangleHolds, name_line};

use std::alloc::Global;
use vk_accept::{NoUnit, accepted_of};
use vk_ends::{End, Refusal, UNIT_LIMIT, print, read_input};
use vk_io::{Lines, Memory, Sink, Store};
use vk_kinds::Target;
use vk_rules::names;
use vk_variants::NameList;

/// Reads a unit, judges it and writes each vector name that its directives give, one a line.
pub fn mangle<S: Store, O: Sink>(
    alloc: Global,
    target: Target,
    unit: &str,
    store: &mut S,
    out: &mut O,
) -> End
    ensures { MangleHolds target unit.now (S.state store.old) (S.state store.new) (O.state out.old) (O.state out.new) result }
{
    let bytes = match read_input(alloc, store, unit, 0, UNIT_LIMIT) {
        Ok(bytes) => bytes,
        Err(end) => return end,
    };
    let lines = match lines_of(alloc, &bytes, target) {
        Ok(lines) => lines,
        Err(
            NoUnit::Rule {
                line,
                directive,
                rule,
            },
        ) => {
            return End::Refused(Refusal::Unit {
                input: 0,
                line,
                directive,
                rule,
            });
        }
        Err(NoUnit::NotYet) => return End::Refused(Refusal::NotYet { input: 0 }),
        Err(NoUnit::Memory) => return End::Memory,
    };
    print(out, &lines)
}

// The lines of the names of the unit with these bytes.
fn lines_of(alloc: Global, bytes: &[u8], target: Target) -> Result<Lines, NoUnit>
    requires { length bytes.now ≤ 1048576 }
    ensures named { IfOk result (λ lines. (names : List (List ℕ)) × IsNamed target bytes.now names × (lines ≡ map name_line names)) }
    ensures refused { (line directive : ℕ) (rule : RuleOf) → IsErrOf result (NoUnit.Rule line directive rule) →
        IsUnitRefused bytes.now target line directive rule }
    ensures not_yet { IsErrOf result NoUnit.NotYet → HasSimdLine bytes.now }
{
    let unit = match accepted_of(alloc, bytes, target) {
        Ok(unit) => unit,
        Err(fail) => return Err(fail),
    };
    match names(alloc, &unit) {
        Ok(list) => match lines_in(alloc, &list) {
            Ok(lines) => Ok(lines),
            Err(Memory) => Err(NoUnit::Memory),
        },
        Err(Memory) => Err(NoUnit::Memory),
    }
}

// A line of each name.
fn lines_in(alloc: Global, names: &NameList) -> Result<Lines, Memory>
    ensures { IfOk result (λ lines. lines ≡ map name_line names.now) }
{
    let mut lines = Lines::new(alloc);
    let mut line = Vec::new(alloc);
    for i in 0..names.len() {
        line.clear();
        line.extend_from_slice(names.text(i))?;
        line.push(b'\n')?;
        lines.push(&line)?;
    }
    Ok(lines)
}
