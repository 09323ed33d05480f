// Arguments of calls.

ghost use Rattle.std.specs.Prelude.{◌≡◌, ◌+◌, ◌∷◌, ◌++◌, [], IfErr, OnOk, drop, length};
ghost use Rattle.vk_meaning.specs.Data.{as_type};
ghost use Rattle.vk_meaning.specs.Types.{next_type};
ghost use Rattle.vk_meaning.specs.declared.reading.RunFail.TheVariants.{Memory};
ghost use Rattle.vk_reading.specs.declared.held.Halt.TheVariants.{Failed};
ghost use Rattle.vk_reading.specs.Held.{IsHeld, datum_of};
ghost use Rattle.vk_rules_book.specs.Typings.{wanted_types};
ghost use Rattle.vk_rules_names.specs.Seen.{meaning_seen};
ghost use Rattle.vk_reading_steps.specs.Settings.{AreHeld, data_of};

use vk_kinds::CType;
use vk_meaning::RunFail;
use vk_reading::held::as_type;
use vk_reading::{Halt, Held};
use vk_rules_names::Known;

// The type of the parameter that an argument with this number is for, void where there is none.
fn wanted_type(known: &Known, number: usize) -> CType
    ensures { result ≡ next_type (drop number (wanted_types (meaning_seen known.now))) }
{
    match known.wanted(number) {
        Some(ctype) => ctype,
        None => CType::Void,
    }
}

// Adds a value behind others.
fn add_value(values: &mut Vec<Held>, value: Held) -> Result<(), Halt>
    requires before { AreHeld values.old.items }
    requires held { IsHeld value }
    ensures held { OnOk result (AreHeld values.new.items) }
    ensures added { OnOk result (values.new.items ≡ values.old.items ++ value ∷ []) }
    ensures memory { IfErr result (λ halt. halt ≡ Failed Memory) }
{
    match values.push(value) {
        Ok(()) => Ok(()),
        Err(_) => Err(Halt::Failed(RunFail::Memory)),
    }
}

/// Adds the value of the next argument, as one of its parameter's type (C17 6.5.2.2); it fails only for want of memory.
pub fn add_argument(known: &Known, values: &mut Vec<Held>, value: Held) -> Result<(), Halt>
    requires before { AreHeld values.old.items }
    requires held { IsHeld value }
    ensures held { OnOk result (AreHeld values.new.items) }
    ensures count { OnOk result (length values.new.items ≡ length values.old.items + 1) }
    ensures added { OnOk result (data_of values.new.items ≡ data_of values.old.items
        ++ as_type (next_type (drop (length values.old.items) (wanted_types (meaning_seen known.now)))) (datum_of value) ∷ []) }
    ensures memory { IfErr result (λ halt. halt ≡ Failed Memory) }
{
    let to = wanted_type(known, values.len());
    add_value(values, as_type(value, to))
}
