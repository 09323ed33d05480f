// The cells that a run needs: those of the arrays, and those of the greatest chain of calls, found round by round. Sums stay at
// the greatest `u64` once they would pass it.

ghost use Rattle.std.specs.Prelude.{◌≡◌, ◌+◌, max, map, sum, nat_le, IfOk};
ghost use Rattle.vk_code.specs.Listing.{listing_of};
ghost use Rattle.vk_object.specs.Images.{cells_of, code_of, frame_cells, greatest};
ghost use Rattle.vk_object.specs.Tables.{array_list_of, entry_list_of, tables_of};
ghost use Rattle.vk_image.specs.Inner.Rounds.{called_cells, capped, cells_at, chain_at, entry_cells, loop_cells, row_count};

use crate::chains::MAX_CHAIN;
use std::alloc::{AllocError, Global};
use vk_code::Code;
use vk_object::{ArrayRow, Entry, ImageTables, LoopTargets};

/// The most cells of an image.
pub const MAX_CELLS: u64 = 33554432;

/// Whether the image has no more cells than the most.
pub(crate) fn are_cells_few(alloc: Global, tables: &ImageTables) -> Result<bool, AllocError>
    ensures { IfOk result (λ are. are ≡ nat_le (cells_of (tables_of tables.now)) 33554432) }
{
    let row = callees(alloc, tables)?;
    let chain = greatest_chain(tables, &tables.entries, &row);
    Ok(array_cells(&tables.arrays).saturating_add(chain) <= MAX_CELLS)
}

// The elements of all arrays.
fn array_cells(arrays: &[ArrayRow]) -> u64
    ensures { result ≡ capped (sum (map (λ a. (array_list_of a).length) arrays.now)) }
{
    let mut cells: u64 = 0;
    for array in arrays {
        cells = cells.saturating_add(u64::from(array.length));
    }
    cells
}

// The cells of the greatest chain of at most one entry fewer than the most, from each entry on.
fn callees(alloc: Global, tables: &ImageTables) -> Result<Vec<u64>, AllocError>
    ensures { IfOk result (λ row. cells_at row.items ≡ chain_at (tables_of tables.now) 63) }
{
    let mut row = Vec::new(alloc);
    for depth in 0..MAX_CHAIN - 1 {
        row = callers(alloc, tables, &row)?;
    }
    Ok(row)
}

// The same for chains of one entry more.
fn callers(alloc: Global, tables: &ImageTables, row: &[u64]) -> Result<Vec<u64>, AllocError>
    ensures { IfOk result (λ next. next.items ≡ map (λ e. entry_cells (tables_of tables.now) (cells_at row.now) (entry_list_of e)) tables.now.entries.items) }
{
    let mut next = Vec::new(alloc);
    for entry in &tables.entries {
        next.push(entry_cells(tables, entry, row))?;
    }
    Ok(next)
}

fn greatest_chain(tables: &ImageTables, entries: &[Entry], row: &[u64]) -> u64
    ensures { result ≡ greatest (map (λ e. entry_cells (tables_of tables.now) (cells_at row.now) (entry_list_of e)) entries.now) }
{
    let mut most: u64 = 0;
    for entry in entries {
        most = most.max(entry_cells(tables, entry, row));
    }
    most
}

// The cells of the greatest chain from the entry on.
fn entry_cells(tables: &ImageTables, entry: &Entry, row: &[u64]) -> u64
    ensures { result ≡ entry_cells (tables_of tables.now) (cells_at row.now) (entry_list_of entry.now) }
{
    let called = called_cells(&entry.targets, row).max(loop_cells(&entry.loops, row));
    frame_cells(tables, entry).saturating_add(called)
}

// The registers and masks of the entry in all its lanes.
fn frame_cells(tables: &ImageTables, entry: &Entry) -> u64
    ensures { result ≡ capped (frame_cells (entry_list_of entry.now) (code_of (tables_of tables.now) (entry_list_of entry.now))) }
{
    match tables.codes.get(entry.code as usize) {
        Some(code) => row_count(code).saturating_mul(u64::from(entry.lanes)),
        None => 0,
    }
}

// The registers and masks.
fn row_count(code: &Code) -> u64
    ensures { result ≡ row_count (listing_of code.now) }
{
    (code.regs.len() as u64).saturating_add(u64::from(code.masks))
}

fn called_cells(targets: &[u32], row: &[u64]) -> u64
    ensures { result ≡ called_cells (cells_at row.now) targets.now }
{
    let mut most: u64 = 0;
    for target in targets {
        most = most.max(cells_at(row, *target));
    }
    most
}

fn loop_cells(loops: &[LoopTargets], row: &[u64]) -> u64
    ensures { result ≡ loop_cells (cells_at row.now) loops.now }
{
    let mut most: u64 = 0;
    for targets in loops {
        most = most.max(cells_at(row, targets.chunk).max(cells_at(row, targets.rest)));
    }
    most
}

// What the row says of an entry.
fn cells_at(row: &[u64], number: u32) -> u64
    ensures { result ≡ cells_at row.now number }
{
    match row.get(number as usize) {
        Some(cells) => *cells,
        None => 0,
    }
}
