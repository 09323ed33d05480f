// An image from its tables.

ghost use Rattle.std.specs.Prelude.{◌≡◌, IfOk, IfSome, is_some};
ghost use Rattle.vk_object.specs.Images.{is_image};
ghost use Rattle.vk_object.specs.Tables.{tables_of};
ghost use Rattle.vk_image.specs.Inner.Parts.{are_all_linked, has_shape};
ghost use Rattle.vk_image.specs.Making.{HasTables};

use crate::arrays::{are_arrays, do_arrays_ascend};
use crate::cells::are_cells_few;
use crate::chains::are_chains_short;
use crate::codes::are_codes;
use crate::header::{is_letter, is_vl};
use crate::links::{are_linked, is_main};
use crate::rows::{are_rows, do_entries_ascend, is_some_entry};
use std::alloc::{AllocError, Global};
use vk_memory::Memory;
use vk_object::{Image, ImageTables};

/// The image of these tables; `None` exactly where they break a condition on the tables of an image. Tables that give no image,
/// for want of memory too, are dropped.
pub fn image_of(alloc: Global, tables: ImageTables) -> Result<Option<Image>, Memory>
    ensures valid { IfOk result (λ answer. is_some answer ≡ is_image (tables_of tables)) }
    ensures same { IfOk result (λ answer. IfSome answer (HasTables tables)) }
{
    if !is_image(alloc, &tables)? {
        return Ok(None);
    }
    Ok(Some(Image {
        target: tables.target,
        isa: tables.isa,
        vl: tables.vl,
        main: tables.main,
        arrays: tables.arrays,
        codes: tables.codes,
        entries: tables.entries,
    }))
}

fn is_image(alloc: Global, tables: &ImageTables) -> Result<bool, AllocError>
    ensures { IfOk result (λ is. is ≡ is_image (tables_of tables.now)) }
{
    if !has_shape(tables) {
        return Ok(false);
    }
    if !are_codes(alloc, tables)? {
        return Ok(false);
    }
    if !are_all_linked(tables) {
        return Ok(false);
    }
    if !are_chains_short(alloc, tables)? {
        return Ok(false);
    }
    Ok(are_cells_few(alloc, tables)?)
}

// The conditions on header, arrays and entries by themselves.
fn has_shape(tables: &ImageTables) -> bool
    ensures { result ≡ has_shape (tables_of tables.now) }
{
    is_letter(tables.target, tables.isa)
        && is_vl(tables.isa, tables.vl)
        && are_arrays(tables)
        && do_arrays_ascend(tables)
        && are_rows(tables)
        && do_entries_ascend(tables)
        && is_some_entry(tables, tables.main)
}

// The conditions on entries with their codes, and on `main`.
fn are_all_linked(tables: &ImageTables) -> bool
    ensures { result ≡ are_all_linked (tables_of tables.now) }
{
    are_linked(tables) && is_main(tables, tables.main)
}
