// Chains of calls: round by round, which entries begin chains of at most so many entries.

ghost use Rattle.std.specs.Prelude.{◌≡◌, ◌&&◌, map, IfOk};
ghost use Rattle.std.specs.List.{list_all};
ghost use Rattle.vk_object.specs.Images.{calls_within, entry_numbers, is_within};
ghost use Rattle.vk_object.specs.Tables.{entry_list_of, tables_of};
ghost use Rattle.vk_image.specs.Inner.Rounds.{is_told};

use std::alloc::{AllocError, Global};
use vk_object::{Entry, ImageTables, LoopTargets};

/// The most entries of a chain of calls.
pub const MAX_CHAIN: usize = 64;

/// Whether all chains have at most 64 entries, so that no entry calls itself.
pub(crate) fn are_chains_short(alloc: Global, tables: &ImageTables) -> Result<bool, AllocError>
    ensures { IfOk result (λ are. are ≡ list_all (is_within (tables_of tables.now) 64) (entry_numbers (tables_of tables.now))) }
{
    let row = callees(alloc, tables)?;
    Ok(are_within(&tables.entries, &row))
}

// Which entries begin chains of at most one entry fewer than the most.
fn callees(alloc: Global, tables: &ImageTables) -> Result<Vec<bool>, AllocError>
    ensures { IfOk result (λ row. is_told row.items ≡ is_within (tables_of tables.now) 63) }
{
    let mut row = Vec::new(alloc);
    for depth in 0..MAX_CHAIN - 1 {
        row = callers(alloc, &tables.entries, &row)?;
    }
    Ok(row)
}

// Which entries call those of the row alone.
fn callers(alloc: Global, entries: &[Entry], row: &[bool]) -> Result<Vec<bool>, AllocError>
    ensures { IfOk result (λ next. next.items ≡ map (λ e. calls_within (is_told row.now) (entry_list_of e)) entries.now) }
{
    let mut next = Vec::new(alloc);
    for entry in entries {
        next.push(is_within(entry, row))?;
    }
    Ok(next)
}

// Whether each entry calls those of the row alone.
fn are_within(entries: &[Entry], row: &[bool]) -> bool
    ensures { result ≡ list_all (λ e. calls_within (is_told row.now) (entry_list_of e)) entries.now }
{
    entries.iter().all(|entry| is_within(entry, row))
}

fn is_within(entry: &Entry, row: &[bool]) -> bool
    ensures { result ≡ calls_within (is_told row.now) (entry_list_of entry.now) }
{
    are_targets_told(&entry.targets, row) && are_loops_told(&entry.loops, row)
}

fn are_targets_told(targets: &[u32], row: &[bool]) -> bool
    ensures { result ≡ list_all (is_told row.now) targets.now }
{
    targets.iter().all(|target| is_told(row, *target))
}

fn are_loops_told(loops: &[LoopTargets], row: &[bool]) -> bool
    ensures { result ≡ list_all (λ t. is_told row.now t.chunk && is_told row.now t.rest) loops.now }
{
    loops.iter().all(|targets| is_told(row, targets.chunk) && is_told(row, targets.rest))
}

// What the row says of an entry.
fn is_told(row: &[bool], number: u32) -> bool
    ensures { result ≡ is_told row.now number }
{
    match row.get(number as usize) {
        Some(told) => *told,
        None => false,
    }
}
