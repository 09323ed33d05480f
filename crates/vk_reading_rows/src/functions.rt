// Where the functions of a program are defined.

ghost use Rattle.std.specs.Prelude.{◌≡◌, ◌++◌, ◌∷◌, [], IfOk, List, None, OnOk, Some, ℕ, cond, map};
ghost use Rattle.std.specs.Option.{option_map, option_or};
ghost use Rattle.vk_ast.specs.Units.{item_of};
ghost use Rattle.vk_rules_book.specs.Rules.{Subject};
ghost use Rattle.vk_rules.specs.Verdicts.{judged};
ghost use Rattle.vk_reading_rows.specs.Functions.{ArePlaces, defines, name_defined, place_among, place_of};
ghost use Rattle.vk_reading_rows.specs.Objects.{subjects_of};
ghost use Rattle.vk_reading_rows.specs.Inner.Noted.{noted};

use crate::objects::text_of;
use crate::texts::{each_name, note, noted_or};
use std::alloc::Global;
use std::collections::HashMap;
use vk_ast::{Item, NameTable};
use vk_memory::Memory;
use vk_rules::Checked;

/// Where a function is defined: the number of its unit, and that of the item there.
#[derive(Clone, Copy, PartialEq, Eq, Debug)]
pub struct FunctionPlace {
    pub unit: usize,
    pub item: usize,
}

/// Where the functions of a program are defined, by their names.
#[derive(Drop)]
pub struct FunctionPlaces<'a> {
    pub by_text: HashMap<&'a [u8], Option<FunctionPlace>>,
}

// The name of the function that an item defines (C17 6.9.1).
fn name_defined<'a>(checked: &'a Checked, item: &'a Item) -> Option<&'a [u8]>
    ensures { option_map (λ t. t.now) result ≡ name_defined (judged checked.now).texts (item_of item.now) }
{
    match item {
        Item::Function(f) => match &f.body {
            Some(_) => Some(text_of(&checked.unit().names, f.name)),
            None => None,
        },
        Item::Object(_) => None,
        Item::Lost(_) => None,
    }
}

// Notes the place of an item under the name of the function that it defines.
fn note_item<'a>(
    table: &mut HashMap<&'a [u8], Option<FunctionPlace>>,
    checked: &'a Checked,
    item: &'a Item,
    place: FunctionPlace,
) -> Result<(), Memory>
    ensures { OnOk result ((t : List ℕ) → noted table.new t ≡ option_or (noted table.old t) (cond (defines (judged checked.now).texts t (item_of item.now)) (Some (Some place)) None)) }
{
    match name_defined(checked, item) {
        Some(text) => note(table, text, Some(place)),
        None => Ok(()),
    }
}

// Notes the places of some items of a unit, which has this number.
fn note_items<'a>(
    table: &mut HashMap<&'a [u8], Option<FunctionPlace>>,
    checked: &'a Checked,
    unit: usize,
    items: &'a [Item],
) -> Result<(), Memory>
    ensures { OnOk result ((t : List ℕ) → noted table.new t ≡ option_or (noted table.old t) (option_map Some (place_among unit (judged checked.now).texts (map item_of items.now) t))) }
{
    for (number, item) in items.iter().enumerate() {
        note_item(table, checked, item, FunctionPlace { unit, item: number })?;
    }
    Ok(())
}

// Notes the places of a unit's items, which has this number.
fn note_unit<'a>(
    table: &mut HashMap<&'a [u8], Option<FunctionPlace>>,
    checked: &'a Checked,
    unit: usize,
) -> Result<(), Memory>
    ensures { OnOk result ((t : List ℕ) → noted table.new t ≡ option_or (noted table.old t) (option_map Some (place_among unit (judged checked.now).texts (judged checked.now).items t))) }
{
    note_items(table, checked, unit, &checked.unit().items)
}

// The first place under each name.
fn places_of<'a>(
    alloc: Global,
    units: &'a [Checked],
) -> Result<HashMap<&'a [u8], Option<FunctionPlace>>, Memory>
    ensures { IfOk result (λ table. (t : List ℕ) → noted table t ≡ option_map Some (place_of (subjects_of units.now) t)) }
{
    let mut table = HashMap::new(alloc);
    for (number, checked) in units.iter().enumerate() {
        note_unit(&mut table, checked, number)?;
    }
    Ok(table)
}

/// Where the functions of these units are defined.
pub fn function_places<'a>(
    alloc: Global,
    units: &'a [Checked],
) -> Result<FunctionPlaces<'a>, Memory>
    ensures { IfOk result (λ places. ArePlaces (subjects_of units.now) places) }
{
    let by_text = places_of(alloc, units)?;
    Ok(FunctionPlaces { by_text })
}

impl<'a> FunctionPlaces<'a> {
    /// Where the function with this name is defined.
    pub fn of(&self, text: &[u8]) -> Option<FunctionPlace>
        ensures { (units : List Subject) → ArePlaces units self.now → result ≡ place_of units text.now }
    {
        noted_or(&self.by_text, text, None)
    }

    /// Where the functions of a unit's names are defined; the last one is that of names past the table.
    pub fn of_names(
        &self,
        alloc: Global,
        names: &NameTable,
    ) -> Result<Vec<Option<FunctionPlace>>, Memory>
        ensures { (units : List Subject) → ArePlaces units self.now → IfOk result (λ list. list.items ≡ map (place_of units) (names.now ++ [] ∷ [])) }
    {
        each_name(alloc, &self.by_text, None, names)
    }
}
