// An image from its tables.

ghost use Rattle.std.specs.Prelude.{◌≡◌, true, map, IfOk};
ghost use Rattle.vk_code.specs.Listing.{listing_of};
ghost use Rattle.vk_code_format.specs.Values.{listing_of as listing_of_row};
ghost use Rattle.vk_image_format.specs.Values.{array_of, entry_of, tables_of as tables_of_rows};
ghost use Rattle.vk_image_write.specs.Lists.{image_lists};
ghost use Rattle.vk_object.specs.Images.{is_image};
ghost use Rattle.vk_object.specs.Tables.{array_list_of, entry_list_of, tables_of};

use crate::params::params_of;
use std::alloc::Global;
use vk_code::Code;
use vk_code_format::CodeRow;
use vk_code_rows::faults::exact_code_of;
use vk_image_format::{RawArray, RawEntry, RawImage};
use vk_memory::Memory;
use vk_object::{ArrayRow, Entry, Image, ImageTables};

fn array_of(alloc: Global, row: &RawArray) -> Result<ArrayRow, Memory>
    ensures { IfOk result (λ a. array_list_of a ≡ array_of row.now) }
{
    let text = Vec::from_slice(alloc, row.text.as_slice())?;
    let elements = Vec::from_slice(alloc, row.elements.as_slice())?;
    Ok(ArrayRow {
        text,
        ty: row.ty,
        fixed: row.fixed,
        length: row.length,
        elements,
    })
}

fn arrays_of(alloc: Global, rows: &[RawArray]) -> Result<Vec<ArrayRow>, Memory>
    ensures { IfOk result (λ arrays. map array_list_of arrays.items ≡ map array_of rows.now) }
{
    let mut arrays = Vec::new(alloc);
    for row in rows {
        arrays.push(array_of(alloc, row)?)?;
    }
    Ok(arrays)
}

fn codes_of(alloc: Global, rows: &[CodeRow]) -> Result<Vec<Code>, Memory>
    ensures { IfOk result (λ codes. map listing_of codes.items ≡ map listing_of_row rows.now) }
{
    let mut codes = Vec::new(alloc);
    for row in rows {
        codes.push(exact_code_of(alloc, row)?)?;
    }
    Ok(codes)
}

fn entry_of(alloc: Global, row: &RawEntry) -> Result<Entry, Memory>
    ensures { IfOk result (λ e. entry_list_of e ≡ entry_of row.now) }
{
    let params = params_of(row.front.params.as_slice())?;
    let text = Vec::from_slice(alloc, row.front.name.text.as_slice())?;
    let targets = Vec::from_slice(alloc, row.targets.as_slice())?;
    let loops = Vec::from_slice(alloc, row.loops.as_slice())?;
    Ok(Entry {
        text,
        kind: row.front.name.kind,
        lanes: row.front.name.lanes,
        code: row.front.code,
        params,
        targets,
        loops,
    })
}

fn entries_of(alloc: Global, rows: &[RawEntry]) -> Result<Vec<Entry>, Memory>
    ensures { IfOk result (λ entries. map entry_list_of entries.items ≡ map entry_of rows.now) }
{
    let mut entries = Vec::new(alloc);
    for row in rows {
        entries.push(entry_of(alloc, row)?)?;
    }
    Ok(entries)
}

// The tables of the rows.
fn tables_of(alloc: Global, rows: &RawImage) -> Result<ImageTables, Memory>
    ensures { IfOk result (λ tables. tables_of tables ≡ tables_of_rows rows.now) }
{
    let arrays = arrays_of(alloc, rows.arrays.as_slice())?;
    let codes = codes_of(alloc, rows.codes.as_slice())?;
    let entries = entries_of(alloc, rows.entries.as_slice())?;
    Ok(ImageTables {
        target: rows.target,
        isa: rows.isa,
        vl: rows.vl,
        main: Some(rows.main),
        arrays,
        codes,
        entries,
    })
}

/// The image of these tables.
pub fn image_of(alloc: Global, rows: &RawImage) -> Result<Image, Memory>
    requires valid { is_image (tables_of_rows rows.now) ≡ true }
    ensures same { IfOk result (λ image. image_lists image ≡ tables_of_rows rows.now) }
{
    let tables = tables_of(alloc, rows)?;
    match vk_image::image_of(alloc, tables)? {
        Some(image) => Ok(image),
        // Does not come: the tables are those of an image.
        None => Err(Memory),
    }
}
