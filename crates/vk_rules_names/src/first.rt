// The first declarations of names at file scope.

ghost use Rattle.std.specs.Prelude.{◌≡◌, ◌+◌, ◌<◌, length, cond, IfOk, OnOk, Some, None};
ghost use Rattle.std.specs.Option.{option_or};
ghost use Rattle.vk_ast.specs.declared.names.NameId.{NameId};
ghost use Rattle.vk_ast.specs.Units.{item_of};
ghost use Rattle.vk_rules_book.specs.Scopes.{declares, same_name};
ghost use Rattle.vk_rules_names.specs.Seen.{AreFirst, HasFirst, number_at};

use std::alloc::Global;
use vk_ast::{Item, Memory, NameId};

// Makes the table longer than this place. What it says stays.
fn reach(first: &mut Vec<Option<usize>>, place: usize) -> Result<(), Memory>
    requires { place < 4294967296 }
    ensures room { OnOk result (place < length first.new.items) }
    ensures same { OnOk result ((id : NameId) → number_at first.new.items id ≡ number_at first.old.items id) }
{
    if place >= first.len() {
        first.resize(place + 1, None)?;
    }
    Ok(())
}

// Notes that the item with this number declares the name. A name keeps its first item.
fn declare(first: &mut Vec<Option<usize>>, id: NameId, number: usize) -> Result<(), Memory>
    ensures { OnOk result ((other : NameId) →
        number_at first.new.items other ≡ option_or (number_at first.old.items other) (cond (same_name id other) (Some number) None)) }
{
    let place = id.0 as usize;
    reach(first, place)?;
    if first[place].is_none() {
        first[place] = Some(number);
    }
    Ok(())
}

// Notes what the item with this number declares.
fn declare_item(first: &mut Vec<Option<usize>>, item: &Item, number: usize) -> Result<(), Memory>
    ensures { OnOk result ((id : NameId) →
        number_at first.new.items id ≡ option_or (number_at first.old.items id) (cond (declares id (item_of item.now)) (Some number) None)) }
{
    match item {
        Item::Function(f) => declare(first, f.name, number),
        Item::Object(o) => declare(first, o.name, number),
        Item::Lost(_) => Ok(()),
    }
}

/// Adds to the table of so many items what the next one declares.
pub fn declare_next(
    first: &mut Vec<Option<usize>>,
    items: &[Item],
    number: usize,
) -> Result<(), Memory>
    requires number { number < length items.now }
    requires before { AreFirst items.now first.old.items number }
    ensures numbers { OnOk result (AreFirst items.now first.new.items (number + 1)) }
    ensures first { OnOk result (HasFirst items.now first.new.items (number + 1)) }
{
    declare_item(first, &items[number], number)?;
    Ok(())
}

/// The table of no item, with room for so many names.
pub fn no_declarations(alloc: Global, names: usize) -> Result<Vec<Option<usize>>, Memory>
    ensures { IfOk result (λ first. (id : NameId) → number_at first.items id ≡ None) }
{
    let mut first = Vec::new(alloc);
    first.resize(names, None)?;
    Ok(first)
}

/// For each name, by its number, the number of the first item that declares it: in a table with room for so many names, which
/// grows where an item declares one past them.
pub fn first_declarations(
    alloc: Global,
    items: &[Item],
    names: usize,
) -> Result<Vec<Option<usize>>, Memory>
    ensures numbers { IfOk result (λ first. AreFirst items.now first.items (length items.now)) }
    ensures first { IfOk result (λ first. HasFirst items.now first.items (length items.now)) }
{
    let mut first = no_declarations(alloc, names)?;
    for number in 0..items.len() {
        declare_next(&mut first, items, number)?;
    }
    Ok(first)
}
