// The arrays that the names of a unit are.

ghost use Rattle.std.specs.Prelude.{◌≡◌, ◌++◌, ◌∷◌, [], IfOk, List, ℕ, bytes_eq, map, position};
ghost use Rattle.vk_meaning.specs.World.{Array};
ghost use Rattle.vk_meaning.specs.Programs.{array_number};
ghost use Rattle.vk_reading_rows.specs.Numbers.{IsNumbering};
ghost use Rattle.vk_reading_rows.specs.Objects.{array_seen};
ghost use Rattle.vk_reading_rows.specs.Inner.Noted.{noted};

use crate::objects::Placed;
use crate::texts::{each_name, note};
use std::alloc::Global;
use std::collections::HashMap;
use vk_ast::NameTable;
use vk_memory::Memory;

/// The numbers of the arrays of a program, by their names.
#[derive(Drop)]
pub struct ArrayNumbers<'a> {
    pub by_text: HashMap<&'a [u8], u32>,
    pub count: u32,
}

// The number of the first array with each name.
fn numbers_of<'a>(alloc: Global, objects: &[Placed<'a>]) -> Result<HashMap<&'a [u8], u32>, Memory>
    ensures { IfOk result (λ table. (t : List ℕ) → noted table t ≡ position (λ a. bytes_eq a.text t) (map array_seen objects.now)) }
{
    let mut table = HashMap::new(alloc);
    for (number, placed) in objects.iter().enumerate() {
        let Ok(array) = u32::try_from(number) else {
            return Err(Memory);
        };
        note(&mut table, placed.text, array)?;
    }
    Ok(table)
}

/// The numbers of these arrays.
pub fn array_numbers<'a>(alloc: Global, objects: &[Placed<'a>]) -> Result<ArrayNumbers<'a>, Memory>
    ensures { IfOk result (λ numbers. IsNumbering (map array_seen objects.now) numbers) }
{
    let by_text = numbers_of(alloc, objects)?;
    let Ok(count) = u32::try_from(objects.len()) else {
        return Err(Memory);
    };
    Ok(ArrayNumbers { by_text, count })
}

impl<'a> ArrayNumbers<'a> {
    /// The number of the array of each name of a unit; the last one is that of names past the table.
    pub fn of_names(&self, alloc: Global, names: &NameTable) -> Result<Vec<u32>, Memory>
        ensures { (arrays : List Array) → IsNumbering arrays self.now → IfOk result (λ list. list.items ≡ map (array_number arrays) (names.now ++ [] ∷ [])) }
    {
        each_name(alloc, &self.by_text, self.count, names)
    }
}
