// The objects of a program, in the order in which its arrays stand.

ghost use Rattle.std.specs.Prelude.{◌≡◌, ◌∷◌, ◌++◌, [], IfOk, OnOk, filter_map, flat_map, map};
ghost use Rattle.std.specs.Option.{option_map};
ghost use Rattle.vk_ast.specs.Units.{item_of};
ghost use Rattle.vk_rules_book.specs.Scopes.{text_of};
ghost use Rattle.vk_meaning.specs.Programs.{array_defined, arrays_of};
ghost use Rattle.vk_rules.specs.Verdicts.{judged};
ghost use Rattle.vk_reading_rows.specs.Objects.{array_seen, subjects_of};
ghost use Rattle.vk_reading_rows.specs.Inner.Collected.{objects_of_unit};

use std::alloc::Global;
use vk_ast::{Item, NameId, NameTable, Object};
use vk_memory::Memory;
use vk_rules::Checked;

/// An object that a unit defines, and its name.
#[derive(Clone, Copy)]
pub struct Placed<'a> {
    pub text: &'a [u8],
    pub object: &'a Object,
}

// The text of a name, empty where the table has none.
pub(crate) fn text_of(names: &NameTable, id: NameId) -> &[u8]
    ensures { result.now ≡ text_of names.now id }
{
    if (id.0 as usize) < names.len() {
        names.text(id)
    } else {
        &[]
    }
}

// The object that an item of this unit defines.
fn defined<'a>(checked: &'a Checked, item: &'a Item) -> Option<Placed<'a>>
    ensures { option_map array_seen result ≡ array_defined (judged checked.now) (item_of item.now) }
{
    match item {
        Item::Object(object) => {
            if object.outside {
                return None;
            }
            Some(Placed {
                text: text_of(&checked.unit().names, object.name),
                object,
            })
        }
        Item::Function(_) => None,
        Item::Lost(_) => None,
    }
}

// Adds the object that an item defines.
fn add_object<'a>(
    list: &mut Vec<Placed<'a>>,
    checked: &'a Checked,
    item: &'a Item,
) -> Result<(), Memory>
    ensures { OnOk result (map array_seen list.new.items ≡ map array_seen list.old.items ++ filter_map (array_defined (judged checked.now)) (item_of item.now ∷ [])) }
{
    match defined(checked, item) {
        Some(placed) => {
            list.push(placed)?;
            Ok(())
        }
        None => Ok(()),
    }
}

// Adds the objects that some items of a unit define.
fn add_items<'a>(
    list: &mut Vec<Placed<'a>>,
    checked: &'a Checked,
    items: &'a [Item],
) -> Result<(), Memory>
    ensures { OnOk result (map array_seen list.new.items ≡ map array_seen list.old.items ++ filter_map (array_defined (judged checked.now)) (map item_of items.now)) }
{
    for item in items {
        add_object(list, checked, item)?;
    }
    Ok(())
}

// Adds the objects that a unit defines.
fn add_objects<'a>(list: &mut Vec<Placed<'a>>, checked: &'a Checked) -> Result<(), Memory>
    ensures { OnOk result (map array_seen list.new.items ≡ map array_seen list.old.items ++ objects_of_unit (judged checked.now)) }
{
    add_items(list, checked, &checked.unit().items)
}

// The objects that the units define, unit by unit.
fn objects_of<'a>(alloc: Global, units: &'a [Checked]) -> Result<Vec<Placed<'a>>, Memory>
    ensures { IfOk result (λ list. map array_seen list.items ≡ flat_map objects_of_unit (subjects_of units.now)) }
{
    let mut list = Vec::new(alloc);
    for checked in units {
        add_objects(&mut list, checked)?;
    }
    Ok(list)
}

/// The objects that the units define, which are the arrays of the program: in ascending order of names, byte by byte.
pub fn objects_in_order<'a>(alloc: Global, units: &'a [Checked]) -> Result<Vec<Placed<'a>>, Memory>
    ensures { IfOk result (λ list. map array_seen list.items ≡ arrays_of (subjects_of units.now)) }
{
    let mut list = objects_of(alloc, units)?;
    list.sort_by_key(|p| p.text)?;
    Ok(list)
}
