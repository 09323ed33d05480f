// The numbers of arrays by their names.

ghost use Rattle.std.specs.Prelude.{◌≡◌, IfOk, List, None, OnOk, Some, ℕ, bytes_eq, cond, map, position};
ghost use Rattle.std.specs.Option.{option_or};
ghost use Rattle.vk_pointer_texts.specs.Heads.{array_of};
ghost use Rattle.vk_pointer_texts.specs.Inner.Noted.{noted};

use crate::heads::ArrayHead;
use std::alloc::Global;
use std::collections::HashMap;
use vk_memory::Memory;

// Notes the number of an array under its name, unless one is noted there.
fn note<'a>(
    table: &mut HashMap<&'a [u8], u32>,
    head: &ArrayHead<'a>,
    number: u32,
) -> Result<(), Memory>
    ensures { OnOk result ((t : List ℕ) → noted table.new t ≡ option_or (noted table.old t) (cond (bytes_eq head.now.text.now t) (Some number) None)) }
{
    if table.contains_key(head.text) {
        return Ok(());
    }
    table.insert(head.text, number)?;
    Ok(())
}

/// The number of the first array with each name.
pub fn numbers_of<'a>(
    alloc: Global,
    heads: &'a [ArrayHead<'a>],
) -> Result<HashMap<&'a [u8], u32>, Memory>
    ensures { IfOk result (λ table. (t : List ℕ) → noted table t ≡ position (λ a. bytes_eq a.text t) (map array_of heads.now)) }
{
    let mut table = HashMap::new(alloc);
    for (number, head) in heads.iter().enumerate() {
        let Ok(array) = u32::try_from(number) else {
            return Err(Memory);
        };
        note(&mut table, head, array)?;
    }
    Ok(table)
}

/// The number of an array with this name.
pub fn number_of(table: &HashMap<&[u8], u32>, text: &[u8]) -> Option<u32>
    ensures { result ≡ noted table.now text.now }
{
    match table.get(text) {
        Some(number) => Some(*number),
        None => None,
    }
}
