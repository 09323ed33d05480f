// Tables of what was noted first under a text.

ghost use Rattle.std.specs.Prelude.{◌≡◌, ◌++◌, ◌∷◌, [], IfOk, List, None, OnOk, Some, ℕ, bytes_eq, cond, map, unwrap_or};
ghost use Rattle.std.specs.Option.{option_or};
ghost use Rattle.vk_reading_rows.specs.Inner.Noted.{noted};

use std::alloc::Global;
use std::collections::HashMap;
use vk_ast::{NameId, NameTable};
use vk_memory::Memory;

/// Notes a value under a text, unless one is noted there.
pub(crate) fn note<'a, T: Copy>(
    table: &mut HashMap<&'a [u8], T>,
    text: &'a [u8],
    value: T,
) -> Result<(), Memory>
    ensures { OnOk result ((t : List ℕ) → noted table.new t ≡ option_or (noted table.old t) (cond (bytes_eq text.now t) (Some value) None)) }
{
    if table.contains_key(text) {
        return Ok(());
    }
    table.insert(text, value)?;
    Ok(())
}

/// What is noted under a text, else this.
pub(crate) fn noted_or<T: Copy>(table: &HashMap<&[u8], T>, text: &[u8], other: T) -> T
    ensures { result ≡ unwrap_or (noted table.now text.now) other }
{
    match table.get(text) {
        Some(value) => *value,
        None => other,
    }
}

// What is noted under each name of a table, else this.
fn names_noted<T: Copy>(
    alloc: Global,
    table: &HashMap<&[u8], T>,
    other: T,
    names: &NameTable,
) -> Result<Vec<T>, Memory>
    ensures { IfOk result (λ list. list.items ≡ map (λ t. unwrap_or (noted table.now t) other) names.now) }
{
    let mut list = Vec::new(alloc);
    for number in 0..names.len() {
        let Ok(id) = u32::try_from(number) else {
            return Err(Memory);
        };
        list.push(noted_or(table, names.text(NameId(id)), other))?;
    }
    Ok(list)
}

/// What is noted under each name of a table, else this; and behind them the same of the empty text, which stands for names past the
/// table.
pub(crate) fn each_name<T: Copy>(
    alloc: Global,
    table: &HashMap<&[u8], T>,
    other: T,
    names: &NameTable,
) -> Result<Vec<T>, Memory>
    ensures { IfOk result (λ list. list.items ≡ map (λ t. unwrap_or (noted table.now t) other) (names.now ++ [] ∷ [])) }
{
    let mut list = names_noted(alloc, table, other, names)?;
    list.push(noted_or(table, &[], other))?;
    Ok(list)
}
