// The first fault of the entries, each by its code.

ghost use Rattle.std.specs.Prelude.{◌≡◌, ◌+◌, ℕ, map, IfOk};
ghost use Rattle.vk_code_format.specs.Fields.{first_along};
ghost use Rattle.vk_code_format.specs.Parameters.{param_of};
ghost use Rattle.vk_code_format.specs.Values.{call_of, listing_of, site_of};
ghost use Rattle.vk_code_rows.specs.Sums.{capped};
ghost use Rattle.vk_image_format.specs.Image.{loop_faults, target_faults};
ghost use Rattle.vk_image_format.specs.Values.{tables_of};
ghost use Rattle.vk_image_faults.specs.declared.entries.EntryCheck.TheVariants as EntryCheck;
ghost use Rattle.vk_image_faults.specs.Inner.Told.{broken, entry_size, fault_in_entry};
ghost use Rattle.vk_object_faults.specs.Inner.Told.{place_told};

use crate::lengths::{code_field, entry_size, loops_field, targets_field};
use crate::links::{is_call, is_chunk, is_chunk_entry, is_rest, is_rest_entry, is_variant};
use crate::types::{is_function_code, param_types};
use vk_code_format::{CodeRow, LoopRow, SlotRow};
use vk_image_format::{RawEntry, RawImage};
use vk_image_rows::params_of;
use vk_memory::Memory;
use vk_object::LoopTargets;
use vk_object::parameters::are_typed;

/// A condition on an entry and its code.
#[derive(Clone, Copy, PartialEq, Eq, Debug)]
pub enum EntryCheck {
    /// Entries but for bodies of loops have the code of a function.
    Kind,
    /// The parameters of a variant fit their types.
    Params,
    /// Each slot calls an entry that it may call.
    Targets,
    /// Each loop has a chunk and a rest entry of its body.
    Loops,
}

// Where the number of the code stands, if the code is not that of a function and has to be.
fn kind_fault(code: &CodeRow, at: u64, entry: &RawEntry) -> Option<u64>
    ensures { (i : RawImage) (p : ℕ) → at ≡ capped p → result ≡ place_told (broken EntryCheck.Kind (tables_of i) (listing_of code.now) p entry.now) }
{
    let kind = entry.front.name.kind;
    if is_chunk(kind) || is_rest(kind) || is_function_code(code) {
        return None;
    }
    Some(at.saturating_add(code_field(entry)))
}

// Where the entry begins, if its parameters do not fit the code's types.
fn params_fault(code: &CodeRow, at: u64, entry: &RawEntry) -> Result<Option<u64>, Memory>
    ensures { IfOk result (λ told. (i : RawImage) (p : ℕ) → at ≡ capped p → told ≡ place_told (broken EntryCheck.Params (tables_of i) (listing_of code.now) p entry.now)) }
{
    if !is_variant(entry.front.name.kind) {
        return Ok(None);
    }
    let params = params_of(entry.front.params.as_slice())?;
    if are_typed(param_types(code), &params) {
        return Ok(None);
    }
    Ok(Some(at))
}

// Where the first target stands that its slot may not call, from a place on.
fn target_fault(
    image: &RawImage,
    code: &CodeRow,
    at: u64,
    entry: &RawEntry,
    slots: &[SlotRow],
    targets: &[u32],
) -> Option<u64>
    ensures { (p : ℕ) → at ≡ capped p → result ≡ place_told (target_faults (tables_of image.now) entry.now (listing_of code.now) p (map call_of slots.now) targets.now) }
{
    let mut place = at;
    let count = slots.len().min(targets.len());
    for k in 0..count {
        if !is_call(image, entry, code, &slots[k], targets[k]) {
            return Some(place);
        }
        place = place.saturating_add(4);
    }
    None
}

fn targets_fault(image: &RawImage, code: &CodeRow, at: u64, entry: &RawEntry) -> Option<u64>
    ensures { (p : ℕ) → at ≡ capped p → result ≡ place_told (broken EntryCheck.Targets (tables_of image.now) (listing_of code.now) p entry.now) }
{
    target_fault(
        image,
        code,
        at.saturating_add(targets_field(entry)),
        entry,
        code.routine.front.slots.as_slice(),
        entry.targets.as_slice(),
    )
}

// Where the first target of a loop stands that is none of its body, from a place on.
fn loop_fault(
    image: &RawImage,
    code: &CodeRow,
    at: u64,
    sites: &[LoopRow],
    targets: &[LoopTargets],
) -> Option<u64>
    ensures { (p : ℕ) → at ≡ capped p → result ≡ place_told (loop_faults (tables_of image.now) (listing_of code.now) p (map site_of sites.now) targets.now) }
{
    let mut place = at;
    let count = sites.len().min(targets.len());
    for k in 0..count {
        if !is_chunk_entry(image, code, &sites[k], targets[k].chunk) {
            return Some(place);
        }
        if !is_rest_entry(image, code, &sites[k], targets[k].rest) {
            return Some(place.saturating_add(4));
        }
        place = place.saturating_add(8);
    }
    None
}

fn loops_fault(image: &RawImage, code: &CodeRow, at: u64, entry: &RawEntry) -> Option<u64>
    ensures { (p : ℕ) → at ≡ capped p → result ≡ place_told (broken EntryCheck.Loops (tables_of image.now) (listing_of code.now) p entry.now) }
{
    loop_fault(
        image,
        code,
        at.saturating_add(loops_field(entry)),
        code.loops.as_slice(),
        entry.loops.as_slice(),
    )
}

// Where a condition is broken that is on an entry of this code.
fn broken(
    check: EntryCheck,
    image: &RawImage,
    code: &CodeRow,
    at: u64,
    entry: &RawEntry,
) -> Result<Option<u64>, Memory>
    ensures { IfOk result (λ told. (p : ℕ) → at ≡ capped p → told ≡ place_told (broken check (tables_of image.now) (listing_of code.now) p entry.now)) }
{
    match check {
        EntryCheck::Kind => Ok(kind_fault(code, at, entry)),
        EntryCheck::Params => params_fault(code, at, entry),
        EntryCheck::Targets => Ok(targets_fault(image, code, at, entry)),
        EntryCheck::Loops => Ok(loops_fault(image, code, at, entry)),
    }
}

// Where an entry that stands at this place breaks the condition.
fn fault_in_entry(
    check: EntryCheck,
    image: &RawImage,
    at: u64,
    entry: &RawEntry,
) -> Result<Option<u64>, Memory>
    ensures { IfOk result (λ told. (n p : ℕ) → at ≡ capped p → told ≡ place_told (fault_in_entry check image.now n p entry.now)) }
{
    let codes = image.codes.as_slice();
    let number = entry.front.code as usize;
    if number >= codes.len() {
        return Ok(None);
    }
    broken(check, image, &codes[number], at, entry)
}

/// The same for entries that stand one after the other.
pub(crate) fn fault_in_entries(
    check: EntryCheck,
    image: &RawImage,
    at: u64,
    entries: &[RawEntry],
) -> Result<Option<u64>, Memory>
    ensures { IfOk result (λ told. (p : ℕ) → at ≡ capped p → told ≡ place_told (first_along entry_size (fault_in_entry check image.now) 0 p entries.now)) }
{
    let mut place = at;
    for k in 0..entries.len() {
        let told = fault_in_entry(check, image, place, &entries[k])?;
        if told.is_some() {
            return Ok(told);
        }
        place = place.saturating_add(entry_size(&entries[k]));
    }
    Ok(None)
}
