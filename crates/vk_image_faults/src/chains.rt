// Chains of calls: round by round, which entries begin chains of at most so many entries.

ghost use Rattle.std.specs.Prelude.{◌≡◌, ◌&&◌, map, IfOk};
ghost use Rattle.std.specs.List.{list_all};
ghost use Rattle.vk_object.specs.Images.{calls_within, is_within};
ghost use Rattle.vk_image_format.specs.Values.{entry_of, tables_of};
ghost use Rattle.vk_image.specs.Inner.Rounds.{is_told};
ghost use Rattle.vk_image_faults.specs.Inner.Told.{has_short_chains};

use std::alloc::{AllocError, Global};
use vk_image::chains::MAX_CHAIN;
use vk_image_format::{RawEntry, RawImage};
use vk_object::LoopTargets;

/// Whether all chains have at most 64 entries, so that no entry calls itself.
pub(crate) fn are_chains_short(alloc: Global, image: &RawImage) -> Result<bool, AllocError>
    ensures { IfOk result (λ are. are ≡ has_short_chains image.now) }
{
    let row = callees(alloc, image)?;
    Ok(are_within(image.entries.as_slice(), &row))
}

// Which entries begin chains of at most one entry fewer than the most.
fn callees(alloc: Global, image: &RawImage) -> Result<Vec<bool>, AllocError>
    ensures { IfOk result (λ row. is_told row.items ≡ is_within (tables_of image.now) 63) }
{
    let mut row = Vec::new(alloc);
    for depth in 0..MAX_CHAIN - 1 {
        row = callers(alloc, image.entries.as_slice(), &row)?;
    }
    Ok(row)
}

// Which entries call those of the row alone.
fn callers(alloc: Global, entries: &[RawEntry], row: &[bool]) -> Result<Vec<bool>, AllocError>
    ensures { IfOk result (λ next. next.items ≡ map (λ e. calls_within (is_told row.now) (entry_of e)) entries.now) }
{
    let mut next = Vec::new(alloc);
    for entry in entries {
        next.push(is_within(entry, row))?;
    }
    Ok(next)
}

// Whether each entry calls those of the row alone.
fn are_within(entries: &[RawEntry], row: &[bool]) -> bool
    ensures { result ≡ list_all (λ e. calls_within (is_told row.now) (entry_of e)) entries.now }
{
    entries.iter().all(|entry| is_within(entry, row))
}

fn is_within(entry: &RawEntry, row: &[bool]) -> bool
    ensures { result ≡ calls_within (is_told row.now) (entry_of entry.now) }
{
    are_targets_told(entry.targets.as_slice(), row) && are_loops_told(entry.loops.as_slice(), row)
}

fn are_targets_told(targets: &[u32], row: &[bool]) -> bool
    ensures { result ≡ list_all (is_told row.now) targets.now }
{
    targets.iter().all(|target| is_told(row, *target))
}

fn are_loops_told(loops: &[LoopTargets], row: &[bool]) -> bool
    ensures { result ≡ list_all (λ t. is_told row.now t.chunk && is_told row.now t.rest) loops.now }
{
    loops.iter().all(|targets| is_told(row, targets.chunk) && is_told(row, targets.rest))
}

// What the row says of an entry.
fn is_told(row: &[bool], number: u32) -> bool
    ensures { result ≡ is_told row.now number }
{
    match row.get(number as usize) {
        Some(told) => *told,
        None => false,
    }
}
