// The memory of a machine that has not run.

ghost use Rattle.std.specs.Prelude.{◌≡◌, ◌++◌, ◌-◌, ◌≤◌, length, map, replicate, IfOk};
ghost use Rattle.vk_object.specs.Machine.{first_memory};
ghost use Rattle.vk_object.specs.Tables.{array_list_of};
ghost use Rattle.vk_access.specs.Cells.{cells_in};
ghost use Rattle.vk_access.specs.Stores.{FitsStore};
ghost use Rattle.vk_steps.specs.Places.{image_tables};
ghost use Rattle.vk_fresh.specs.Stores.{first_words, rows_of};

use std::alloc::{AllocError, Global};
use vk_access::Store;
use vk_memory::Memory;
use vk_object::{ArrayRow, Image};
use vk_types::Word;

/// The first words of an image's arrays, and counts of 0.
pub fn first_store(alloc: Global, image: &Image) -> Result<Store, Memory>
    ensures fits { IfOk result (FitsStore image.now) }
    ensures cells { IfOk result (λ store. cells_in store.cells.items ≡ (first_memory (image_tables image.now)).cells) }
    ensures counts { IfOk result (λ store. store.counts.items ≡ replicate (length image.now.entries.items) 0) }
{
    Ok(Store {
        cells: first_rows(alloc, &image.arrays)?,
        counts: vec![in alloc; 0; image.entries.len()]?,
    })
}

// The first words of each array.
fn first_rows(alloc: Global, arrays: &[ArrayRow]) -> Result<Vec<Vec<Word>>, AllocError>
    ensures { IfOk result (λ rows. rows_of rows.items ≡ map (λ a. first_words (array_list_of a)) arrays.now) }
{
    let mut rows = Vec::new(alloc);
    for array in arrays {
        rows.push(first_row(alloc, array)?)?;
    }
    Ok(rows)
}

// The given elements of an array, and 0 for the others.
fn first_row(alloc: Global, array: &ArrayRow) -> Result<Vec<Word>, AllocError>
    ensures { IfOk result (λ row. row.items ≡ first_words (array_list_of array.now)) }
{
    let length = array.length as usize;
    let mut row = Vec::with_capacity(alloc, length)?;
    row.extend_from_slice(&array.elements)?;
    row.resize(length, Word(0))?;
    Ok(row)
}
