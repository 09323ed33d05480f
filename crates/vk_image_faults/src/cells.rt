// The cells that a run needs: those of the arrays, and those of the greatest chain of calls, found round by round. Sums stay at
// the greatest `u64` once they would pass it.

ghost use Rattle.std.specs.Prelude.{◌≡◌, ◌+◌, max, map, sum, IfOk};
ghost use Rattle.vk_code_format.specs.Values.{listing_of};
ghost use Rattle.vk_object.specs.Images.{code_of, frame_cells, greatest};
ghost use Rattle.vk_image_format.specs.Values.{array_of, entry_of, tables_of};
ghost use Rattle.vk_image.specs.Inner.Rounds.{called_cells, capped, cells_at, chain_at, entry_cells, loop_cells, row_count};
ghost use Rattle.vk_image_faults.specs.Inner.Told.{has_few_cells};

use std::alloc::{AllocError, Global};
use vk_code_format::CodeRow;
use vk_image::cells::MAX_CELLS;
use vk_image::chains::MAX_CHAIN;
use vk_image_format::{RawArray, RawEntry, RawImage};
use vk_object::LoopTargets;

/// Whether the image has no more cells than the most.
pub(crate) fn are_cells_few(alloc: Global, image: &RawImage) -> Result<bool, AllocError>
    ensures { IfOk result (λ are. are ≡ has_few_cells image.now) }
{
    let row = callees(alloc, image)?;
    let chain = greatest_chain(image, image.entries.as_slice(), &row);
    Ok(array_cells(image.arrays.as_slice()).saturating_add(chain) <= MAX_CELLS)
}

// The elements of all arrays.
fn array_cells(arrays: &[RawArray]) -> u64
    ensures { result ≡ capped (sum (map (λ a. (array_of a).length) arrays.now)) }
{
    let mut cells: u64 = 0;
    for array in arrays {
        cells = cells.saturating_add(u64::from(array.length));
    }
    cells
}

// The cells of the greatest chain of at most one entry fewer than the most, from each entry on.
fn callees(alloc: Global, image: &RawImage) -> Result<Vec<u64>, AllocError>
    ensures { IfOk result (λ row. cells_at row.items ≡ chain_at (tables_of image.now) 63) }
{
    let mut row = Vec::new(alloc);
    for depth in 0..MAX_CHAIN - 1 {
        row = callers(alloc, image, &row)?;
    }
    Ok(row)
}

// The same for chains of one entry more.
fn callers(alloc: Global, image: &RawImage, row: &[u64]) -> Result<Vec<u64>, AllocError>
    ensures { IfOk result (λ next. next.items ≡ map (λ e. entry_cells (tables_of image.now) (cells_at row.now) (entry_of e)) image.now.entries) }
{
    let mut next = Vec::new(alloc);
    for entry in image.entries.as_slice() {
        next.push(entry_cells(image, entry, row))?;
    }
    Ok(next)
}

fn greatest_chain(image: &RawImage, entries: &[RawEntry], row: &[u64]) -> u64
    ensures { result ≡ greatest (map (λ e. entry_cells (tables_of image.now) (cells_at row.now) (entry_of e)) entries.now) }
{
    let mut most: u64 = 0;
    for entry in entries {
        most = most.max(entry_cells(image, entry, row));
    }
    most
}

// The cells of the greatest chain from the entry on.
fn entry_cells(image: &RawImage, entry: &RawEntry, row: &[u64]) -> u64
    ensures { result ≡ entry_cells (tables_of image.now) (cells_at row.now) (entry_of entry.now) }
{
    let called = called_cells(entry.targets.as_slice(), row).max(loop_cells(
        entry.loops.as_slice(),
        row,
    ));
    frame_cells(image, entry).saturating_add(called)
}

// The registers and masks of the entry in all its lanes.
fn frame_cells(image: &RawImage, entry: &RawEntry) -> u64
    ensures { result ≡ capped (frame_cells (entry_of entry.now) (code_of (tables_of image.now) (entry_of entry.now))) }
{
    match image.codes.as_slice().get(entry.front.code as usize) {
        Some(code) => row_count(code).saturating_mul(u64::from(entry.front.name.lanes)),
        None => 0,
    }
}

// The registers and masks.
fn row_count(code: &CodeRow) -> u64
    ensures { result ≡ row_count (listing_of code.now) }
{
    (code.routine.front.regs.len() as u64).saturating_add(u64::from(code.routine.front.masks))
}

fn called_cells(targets: &[u32], row: &[u64]) -> u64
    ensures { result ≡ called_cells (cells_at row.now) targets.now }
{
    let mut most: u64 = 0;
    for target in targets {
        most = most.max(cells_at(row, *target));
    }
    most
}

fn loop_cells(loops: &[LoopTargets], row: &[u64]) -> u64
    ensures { result ≡ loop_cells (cells_at row.now) loops.now }
{
    let mut most: u64 = 0;
    for targets in loops {
        most = most.max(cells_at(row, targets.chunk).max(cells_at(row, targets.rest)));
    }
    most
}

// What the row says of an entry.
fn cells_at(row: &[u64], number: u32) -> u64
    ensures { result ≡ cells_at row.now number }
{
    match row.get(number as usize) {
        Some(cells) => *cells,
        None => 0,
    }
}
