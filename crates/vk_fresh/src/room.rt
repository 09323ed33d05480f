// The cells of the frames along the longest chain of calls, found round by round. Sums stay at the greatest `u64` once they would
// pass it.

ghost use Rattle.std.specs.Prelude.{◌≡◌, length, map, max, IfOk};
ghost use Rattle.vk_code.specs.Listing.{listing_of};
ghost use Rattle.vk_object.specs.Images.{code_of, frame_cells, greatest};
ghost use Rattle.vk_object.specs.Tables.{entry_list_of};
ghost use Rattle.vk_steps.specs.Places.{image_tables};
ghost use Rattle.vk_image.specs.Inner.Rounds.{called_cells, capped, cells_at, chain_at, entry_cells, loop_cells, row_count};
ghost use Rattle.vk_fresh.specs.Room.{longest_chain};

use std::alloc::{AllocError, Global};
use vk_code::Code;
use vk_image::chains::MAX_CHAIN;
use vk_memory::Memory;
use vk_object::{Entry, Image, LoopTargets};
use vk_types::Word;

/// Words for the frames along the longest chain of calls.
pub fn room(alloc: Global, image: &Image) -> Result<Vec<Word>, Memory>
    ensures { IfOk result (λ words. length words.items ≡ longest_chain (image_tables image.now)) }
{
    let row = chains(alloc, image)?;
    Ok(vec![in alloc; Word(0); longest(image, &row)]?)
}

// The cells of the longest chain of at most 64 entries, from each entry on.
fn chains(alloc: Global, image: &Image) -> Result<Vec<u64>, AllocError>
    ensures round { IfOk result (λ row. cells_at row.items ≡ chain_at (image_tables image.now) 64) }
    ensures length { IfOk result (λ row. length row.items ≡ length image.now.entries.items) }
{
    let mut row = Vec::new(alloc);
    for depth in 0..MAX_CHAIN - 1 {
        row = callers(alloc, image, &row)?;
    }
    callers(alloc, image, &row)
}

// The same for chains of one entry more.
fn callers(alloc: Global, image: &Image, row: &[u64]) -> Result<Vec<u64>, AllocError>
    ensures { IfOk result (λ next. next.items ≡ map (λ e. entry_cells (image_tables image.now) (cells_at row.now) (entry_list_of e)) image.now.entries.items) }
{
    let mut next = Vec::new(alloc);
    for entry in &image.entries {
        next.push(entry_cells(image, entry, row))?;
    }
    Ok(next)
}

// The most cells of a row.
fn longest(image: &Image, row: &[u64]) -> usize
    requires round { cells_at row.now ≡ chain_at (image_tables image.now) 64 }
    requires length { length row.now ≡ length image.now.entries.items }
    ensures { result ≡ longest_chain (image_tables image.now) }
{
    greatest(row) as usize
}

fn greatest(row: &[u64]) -> u64
    ensures { result ≡ greatest row.now }
{
    let mut most: u64 = 0;
    for cells in row {
        most = most.max(*cells);
    }
    most
}

// The cells of the longest chain from the entry on.
fn entry_cells(image: &Image, entry: &Entry, row: &[u64]) -> u64
    ensures { result ≡ entry_cells (image_tables image.now) (cells_at row.now) (entry_list_of entry.now) }
{
    let called = called_cells(&entry.targets, row).max(loop_cells(&entry.loops, row));
    frame_cells(image, entry).saturating_add(called)
}

// The registers and masks of the entry in all its lanes.
fn frame_cells(image: &Image, entry: &Entry) -> u64
    ensures { result ≡ capped (frame_cells (entry_list_of entry.now) (code_of (image_tables image.now) (entry_list_of entry.now))) }
{
    match image.codes.get(entry.code as usize) {
        Some(code) => row_count(code).saturating_mul(u64::from(entry.lanes)),
        None => 0,
    }
}

// The registers and masks.
fn row_count(code: &Code) -> u64
    ensures { result ≡ row_count (listing_of code.now) }
{
    (code.regs.len() as u64).saturating_add(u64::from(code.masks))
}

fn called_cells(targets: &[u32], row: &[u64]) -> u64
    ensures { result ≡ called_cells (cells_at row.now) targets.now }
{
    let mut most: u64 = 0;
    for target in targets {
        most = most.max(cells_at(row, *target));
    }
    most
}

fn loop_cells(loops: &[LoopTargets], row: &[u64]) -> u64
    ensures { result ≡ loop_cells (cells_at row.now) loops.now }
{
    let mut most: u64 = 0;
    for targets in loops {
        most = most.max(cells_at(row, targets.chunk).max(cells_at(row, targets.rest)));
    }
    most
}

// What the row says of an entry.
fn cells_at(row: &[u64], number: u32) -> u64
    ensures { result ≡ cells_at row.now number }
{
    match row.get(number as usize) {
        Some(cells) => *cells,
        None => 0,
    }
}
