// Tables of numbers by name.

ghost use Rattle.std.specs.Prelude.{◌≡◌, ◌<◌, length, cond, OnOk, Some, None};
ghost use Rattle.std.specs.Option.{option_or};
ghost use Rattle.vk_ast.specs.declared.names.NameId.{NameId};
ghost use Rattle.vk_rules_book.specs.Scopes.{same_name};
ghost use Rattle.vk_rules_names.specs.Seen.{number_at};

use vk_ast::{Memory, NameId};

/// The number that a table has for a name.
pub fn number_of(table: &Vec<Option<usize>>, id: NameId) -> Option<usize>
    ensures { result ≡ number_at table.now.items id }
{
    match table.get(id.0 as usize) {
        Some(number) => *number,
        None => None,
    }
}

// Makes the table longer than this place. What it says stays.
fn reach(table: &mut Vec<Option<usize>>, place: usize) -> Result<(), Memory>
    requires { place < 4294967296 }
    ensures room { OnOk result (place < length table.new.items) }
    ensures same { OnOk result ((id : NameId) → number_at table.new.items id ≡ number_at table.old.items id) }
{
    if place >= table.len() {
        table.resize(place + 1, None)?;
    }
    Ok(())
}

/// Notes a number for a name. A name keeps its first number.
pub fn keep(table: &mut Vec<Option<usize>>, id: NameId, number: usize) -> Result<(), Memory>
    ensures { OnOk result ((other : NameId) →
        number_at table.new.items other ≡ option_or (number_at table.old.items other) (cond (same_name id other) (Some number) None)) }
{
    let place = id.0 as usize;
    reach(table, place)?;
    if table[place].is_none() {
        table[place] = Some(number);
    }
    Ok(())
}
