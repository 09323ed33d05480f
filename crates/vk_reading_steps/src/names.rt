// Names as expressions.

ghost use Rattle.std.specs.Prelude.{◌≡◌, IfOk, List, pos};
ghost use Rattle.vk_ast.specs.declared.names.NameId.{NameId};
ghost use Rattle.vk_meaning.specs.World.{Array, Event};
ghost use Rattle.vk_meaning.specs.Data.{Action, Datum, pointer};
ghost use Rattle.vk_meaning.specs.Expressions.{name_value, object_value};
ghost use Rattle.vk_meaning.specs.Points.{variable_named};
ghost use Rattle.vk_reading.specs.Cells.{AreRowsOf, HaveWords, memory_in};
ghost use Rattle.vk_reading.specs.Held.{IsHeld, datum_of, value_in};
ghost use Rattle.vk_rules_book.specs.Scopes.{meaning_of};
ghost use Rattle.vk_rules_names.specs.Seen.{meaning_seen, scope_of};
ghost use Rattle.vk_io.specs.Sink.{SinkState};
ghost use Rattle.vk_reading_steps.specs.Runs.{Does, run_of};
ghost use Rattle.vk_reading_steps.specs.Settings.{AreHeld, context_in, number_in_table, row_in, variables_in};

use crate::operands::settled;
use crate::setting::Place;
use vk_ast::NameId;
use vk_reading::variables::variable_among;
use vk_reading::{Cells, Halt, Held};
use vk_rules_names::Known;
use vk_types::Stop;

/// What a table has for a name: its last row stands for names past it.
pub fn row_of<T: Copy>(rows: &[T], id: NameId) -> Option<T>
    ensures { result ≡ row_in rows.now id }
{
    let last = rows.len().saturating_sub(1);
    let number = (id.0 as usize).min(last);
    match rows.get(number) {
        Some(row) => Some(*row),
        None => None,
    }
}

// The number of the array that a name is.
fn number_of(numbers: &[u32], id: NameId) -> u32
    ensures { result ≡ number_in_table numbers.now id }
{
    match row_of(numbers, id) {
        Some(number) => number,
        None => 0,
    }
}

// What the variable with this number has.
fn value_at(values: &[Held], number: usize) -> Held
    requires { AreHeld values.now }
    ensures value { datum_of result ≡ variables_in values.now number }
    ensures held { IsHeld result }
{
    match values.get(number) {
        Some(held) => *held,
        None => Held::Nothing,
    }
}

// An object of file scope: the number in a scalar, or a pointer to the first element of an array.
fn object_of(cells: &Cells, array: u32, known: &Known) -> Result<Held, Stop>
    requires { HaveWords cells.now.rows.items }
    ensures value { (arrays : List Array) (events : List Event) → AreRowsOf cells.now.rows.items arrays
        → value_in result (record { memory = memory_in cells.now.rows.items; events = events })
        ≡ object_value arrays array (meaning_seen known.now) (record { memory = memory_in cells.now.rows.items; events = events }) }
    ensures held { IfOk result IsHeld }
{
    match *known {
        Known::Object {
            ty,
            is_array,
            fixed: _,
        } => {
            if is_array {
                return Ok(Held::Pointer {
                    to: ty,
                    array,
                    offset: 0,
                });
            }
            cells.load(vk_reading::Place {
                to: ty,
                array,
                offset: 0,
            })
        }
        _ => Ok(Held::Nothing),
    }
}

// The object of file scope that a name is.
fn object_named(cells: &Cells, place: &Place, id: NameId) -> Result<Held, Stop>
    requires { HaveWords cells.now.rows.items }
    ensures value { (arrays : List Array) (events : List Event) → AreRowsOf cells.now.rows.items arrays
        → value_in result (record { memory = memory_in cells.now.rows.items; events = events })
        ≡ object_value arrays (number_in_table place.now.setting.numbers.now id) (meaning_of (scope_of place.now.scopes) id)
        (record { memory = memory_in cells.now.rows.items; events = events }) }
    ensures held { IfOk result IsHeld }
{
    let array = number_of(place.setting.numbers, id);
    let known = place.scopes.meaning(id);
    object_of(cells, array, &known)
}

// A variable, else an object.
fn name_held(cells: &Cells, place: &Place, id: NameId) -> Result<Held, Stop>
    requires words { HaveWords cells.now.rows.items }
    requires held { AreHeld place.now.values.now }
    ensures value { (arrays : List Array) (call : NameId → List Datum → Action) (events : List Event) → AreRowsOf cells.now.rows.items arrays
        → value_in result (record { memory = memory_in cells.now.rows.items; events = events })
        ≡ name_value (context_in arrays call place.now.setting) (scope_of place.now.scopes) (variables_in place.now.values.now)
        (variable_named (scope_of place.now.scopes) id) id (record { memory = memory_in cells.now.rows.items; events = events }) }
    ensures held { IfOk result IsHeld }
{
    match variable_among(0, place.scopes.inner, id) {
        Some(variable) => Ok(value_at(place.values, variable.number)),
        None => object_named(cells, place, id),
    }
}

/// The value of a name.
pub fn value_of_name(cells: &Cells, place: &Place, id: NameId) -> Result<Held, Halt>
    requires words { HaveWords cells.now.rows.items }
    requires held { AreHeld place.now.values.now }
    ensures does { (arrays : List Array) (call : NameId → List Datum → Action) (out : SinkState) → Does arrays (run_of cells.now.rows.items out)
        (name_value (context_in arrays call place.now.setting) (scope_of place.now.scopes) (variables_in place.now.values.now)
        (variable_named (scope_of place.now.scopes) id) id)
        (run_of cells.now.rows.items out) result }
    ensures held { IfOk result IsHeld }
{
    settled(name_held(cells, place, id))
}

/// A pointer to the object that a name is.
pub fn address_of_name(place: &Place, id: NameId) -> Held
    ensures value { datum_of result ≡ pointer (number_in_table place.now.setting.numbers.now id) (pos 0) }
    ensures held { IsHeld result }
{
    Held::Pointer {
        to: vk_types::Ty::I32,
        array: number_of(place.setting.numbers, id),
        offset: 0,
    }
}
