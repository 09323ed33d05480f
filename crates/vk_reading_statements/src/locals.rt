// The variables of a function that runs.

ghost use Rattle.std.specs.Prelude.{◌≡◌, ◌<◌, ◌++◌, ◌∷◌, [], OnOk, length, take, pos};
ghost use Rattle.vk_meaning.specs.Data.{number};
ghost use Rattle.vk_meaning.specs.Expressions.{with_datum};
ghost use Rattle.vk_reading.specs.Held.{IsHeld, datum_of};
ghost use Rattle.vk_reading_steps.specs.Settings.{AreHeld, variables_in};

use crate::body::Locals;
use vk_memory::Memory;
use vk_reading::Held;
use vk_reading_steps::operands::literal;
use vk_rules_book::Binding;
use vk_types::Ty;

// Makes room for the variable with this number. What all of them have stays.
fn reach(values: &mut Vec<Held>, number: usize) -> Result<(), Memory>
    requires { AreHeld values.old.items }
    ensures room { OnOk result (number < length values.new.items) }
    ensures same { OnOk result (variables_in values.new.items ≡ variables_in values.old.items) }
    ensures held { OnOk result (AreHeld values.new.items) }
{
    if number < values.len() {
        return Ok(());
    }
    let Some(count) = number.checked_add(1) else {
        return Err(Memory);
    };
    values.resize(count, Held::Nothing)?;
    Ok(())
}

// Another value of the variable with this number, for which there is room.
fn put(values: &mut [Held], number: usize, held: Held)
    requires room { number < length values.old }
    requires before { AreHeld values.old }
    requires held { IsHeld held }
    ensures data { variables_in values.new ≡ with_datum (variables_in values.old) number (datum_of held) }
    ensures held { AreHeld values.new }
{
    values[number] = held;
}

impl Locals {
    /// Another value of the variable with this number.
    pub fn set(&mut self, number: usize, held: Held) -> Result<(), Memory>
        requires before { AreHeld self.old.values.items }
        requires held { IsHeld held }
        ensures bindings { OnOk result (self.new.bindings.items ≡ self.old.bindings.items) }
        ensures data { OnOk result (variables_in self.new.values.items ≡ with_datum (variables_in self.old.values.items) number (datum_of held)) }
        ensures held { OnOk result (AreHeld self.new.values.items) }
    {
        reach(&mut self.values, number)?;
        put(&mut self.values, number, held);
        Ok(())
    }

    /// One more variable, which has 0.
    pub fn declare(&mut self, binding: Binding) -> Result<(), Memory>
        requires { AreHeld self.old.values.items }
        ensures bindings { OnOk result (self.new.bindings.items ≡ self.old.bindings.items ++ binding ∷ []) }
        ensures data { OnOk result (variables_in self.new.values.items
            ≡ with_datum (variables_in self.old.values.items) (length self.old.bindings.items) (number (pos 0))) }
        ensures held { OnOk result (AreHeld self.new.values.items) }
    {
        let number = self.bindings.len();
        self.bindings.push(binding)?;
        self.set(number, literal(Ty::I32, 0))
    }

    /// Only so many stay visible.
    pub fn cut(&mut self, count: usize)
        ensures bindings { self.new.bindings.items ≡ take count self.old.bindings.items }
        ensures values { self.new.values.items ≡ self.old.values.items }
    {
        self.bindings.truncate(count);
    }
}
