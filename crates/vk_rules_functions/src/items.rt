// The functions of a unit, one item after another.

ghost use Rattle.std.specs.Prelude.{◌≡◌, ◌∷◌, ◌++◌, [], false, List, Some, map, OnOk};
ghost use Rattle.vk_ast.specs.Directives.{directive_of};
ghost use Rattle.vk_ast.specs.Units.{ItemTree, item_of};
ghost use Rattle.vk_rules_book.specs.declared.contexts.Around.{Around};
ghost use Rattle.vk_rules_book.specs.Noting.{found};
ghost use Rattle.vk_rules_book.specs.Rules.{Subject};
ghost use Rattle.vk_rules_book.specs.Visits.{along, first_number, function_part, number_of_item};
ghost use Rattle.vk_rules_names.specs.Seen.{item_at, unit_of};
ghost use Rattle.vk_rules_functions.specs.Parts.{Declares};

use crate::functions::judge_function;
use std::alloc::Global;
use vk_ast::{Directive, Function, Item, Memory, NameId, NameTable};
use vk_kinds::Target;
use vk_rules_book::Around;
use vk_rules_names::{Note, Place, declare_next, no_declarations};

fn first_number(directives: &[Directive]) -> u32
    ensures { result ≡ first_number (map directive_of directives.now) }
{
    match directives {
        [] => 0,
        [d, ..] => d.number,
    }
}

// The number of the first directive of an item.
fn number_of_item(item: &Item) -> u32
    ensures { result ≡ number_of_item (Some (item_of item.now)) }
{
    match item {
        Item::Function(f) => first_number(&f.directives),
        Item::Object(_) | Item::Lost(_) => 0,
    }
}

// The number of the first directive of a name's first declaration.
fn number_of(place: &Place, id: NameId) -> u32
    ensures { result ≡ number_of_item (item_at place.now.items.now place.now.first.now id) }
{
    match place.first.get(id.0 as usize) {
        Some(Some(number)) => match place.items.get(*number) {
            Some(item) => number_of_item(item),
            None => 0,
        },
        Some(None) | None => 0,
    }
}

// What is around the body of a function.
fn around_body(place: &Place, f: &Function) -> Around
    ensures { result ≡ record { directive = number_of_item (item_at place.now.items.now place.now.first.now f.now.name); result = f.now.result; in_loop = false } }
{
    Around {
        directive: number_of(place, f.name),
        result: f.result,
        in_loop: false,
    }
}

/// Judges the parameters and the body of an item that is a function, at the place behind it.
pub fn judge_item(alloc: Global, place: &Place, item: &Item, note: &mut Note) -> Result<(), Memory>
    ensures { (before : List ItemTree) → Declares place.now (before ++ item_of item.now ∷ []) →
        OnOk result (note.new.first ≡ found (unit_of place.now) note.old.first (function_part place.now.names.now before (item_of item.now))) }
{
    match item {
        Item::Function(f) => {
            judge_function(alloc, place, around_body(place, f), f, note)?;
            Ok(())
        }
        Item::Object(_) => Ok(()),
        Item::Lost(_) => Ok(()),
    }
}

/// Judges the parameters and the bodies of all functions of a unit.
pub fn judge_functions(
    alloc: Global,
    target: Target,
    names: &NameTable,
    items: &[Item],
    note: &mut Note,
) -> Result<(), Memory>
    ensures { OnOk result (note.new.first ≡ found (record { items = map item_of items.now; texts = names.now; target = target }) note.old.first
        (along (function_part names.now) [] (map item_of items.now))) }
{
    let mut first = no_declarations(alloc, names.len())?;
    for (number, item) in items.iter().enumerate() {
        declare_next(&mut first, items, number)?;
        let place = Place {
            target,
            names,
            items,
            first: &first,
        };
        judge_item(alloc, &place, item, note)?;
    }
    Ok(())
}
