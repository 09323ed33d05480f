// What the reading of a program begins with.

ghost use Rattle.std.specs.Prelude.{◌≡◌, IfOk, List, map};
ghost use Rattle.vk_rules_book.specs.Rules.{Subject};
ghost use Rattle.vk_rules.specs.Verdicts.{judged};
ghost use Rattle.vk_meaning.specs.Programs.{arrays_of};
ghost use Rattle.vk_reading_rows.specs.Functions.{ArePlaces};
ghost use Rattle.vk_reading_rows.specs.Numbers.{IsNumbering};
ghost use Rattle.vk_reading_rows.specs.Objects.{array_seen};
ghost use Rattle.vk_reading_calls.specs.Right.{AreRightIn, IsRight, subject_of, subjects_of};
ghost use Rattle.vk_reading_programs.specs.Prepared.{AreNamed, IsPrepared};

use std::alloc::Global;
use vk_memory::Memory;
use vk_reading::Cells;
use vk_reading_calls::ProgramUnit;
use vk_reading_rows::cells::{are_given_within, first_cells};
use vk_reading_rows::functions::{FunctionPlace, FunctionPlaces, function_places};
use vk_reading_rows::numbers::{ArrayNumbers, array_numbers};
use vk_reading_rows::objects::{Placed, objects_in_order};
use vk_rules::Checked;
use vk_rules_names::first_declarations;

/// The units of a program with what their names are, and where `main` is defined.
#[derive(Drop)]
pub struct Named<'a> {
    pub units: Vec<ProgramUnit<'a>>,
    pub main: Option<FunctionPlace>,
}

/// What the reading of a program begins with: its units, and its cells.
#[derive(Drop)]
pub struct Prepared<'a> {
    pub named: Named<'a>,
    pub cells: Cells,
}

// A unit with what its names are.
fn program_unit<'a>(
    alloc: Global,
    checked: &'a Checked,
    numbers: &ArrayNumbers,
    places: &FunctionPlaces,
) -> Result<ProgramUnit<'a>, Memory>
    ensures unit { IfOk result (λ u. subject_of u ≡ judged checked.now) }
    ensures right { (program : List Subject) → IsNumbering (arrays_of program) numbers.now → ArePlaces program places.now → IfOk result (IsRight program) }
{
    let unit = checked.unit();
    let first = first_declarations(alloc, &unit.items, unit.names.len())?;
    let numbers = numbers.of_names(alloc, &unit.names)?;
    let functions = places.of_names(alloc, &unit.names)?;
    Ok(ProgramUnit {
        target: checked.target(),
        names: &unit.names,
        items: &unit.items,
        first,
        numbers,
        functions,
    })
}

// The units with what their names are.
fn program_units<'a>(
    alloc: Global,
    units: &'a [Checked],
    numbers: &ArrayNumbers,
    places: &FunctionPlaces,
) -> Result<Vec<ProgramUnit<'a>>, Memory>
    ensures units { IfOk result (λ list. subjects_of list.items ≡ map judged units.now) }
    ensures right { (program : List Subject) → IsNumbering (arrays_of program) numbers.now → ArePlaces program places.now → IfOk result (λ list. AreRightIn program list.items) }
{
    let mut list = Vec::new(alloc);
    for checked in units {
        list.push(program_unit(alloc, checked, numbers, places)?)?;
    }
    Ok(list)
}

// The units with what their names are; the arrays of the program are these.
fn name_units<'a>(
    alloc: Global,
    units: &'a [Checked],
    objects: &[Placed],
) -> Result<Named<'a>, Memory>
    requires { map array_seen objects.now ≡ arrays_of (map judged units.now) }
    ensures { IfOk result (λ named. AreNamed (map judged units.now) named) }
{
    let numbers = array_numbers(alloc, objects)?;
    let places = function_places(alloc, units)?;
    let named = program_units(alloc, units, &numbers, &places)?;
    Ok(Named {
        units: named,
        main: places.of(b"main"),
    })
}

/// What the reading of these units begins with. An object with more given elements than it has, as no text has one, is answered by want
/// of memory.
pub fn prepare<'a>(alloc: Global, units: &'a [Checked]) -> Result<Prepared<'a>, Memory>
    ensures { IfOk result (λ prepared. IsPrepared (map judged units.now) prepared) }
{
    let objects = objects_in_order(alloc, units)?;
    if !are_given_within(&objects) {
        return Err(Memory);
    }
    let cells = first_cells(alloc, &objects)?;
    let named = name_units(alloc, units, &objects)?;
    Ok(Prepared { named, cells })
}
