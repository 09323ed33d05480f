// What is judged once the last field of an image is complete.

ghost use Rattle.std.specs.Prelude.{◌≡◌, ◌&&◌, IfOk};
ghost use Rattle.std.specs.Option.{option_map};
ghost use Rattle.vk_image_faults.specs.Ends.{faults_at};
ghost use Rattle.vk_image_faults.specs.Inner.Told.{all_faults, among, among_codes, entry_faults, has_few_cells, has_main, has_short_chains, link_faults, run_faults};
ghost use Rattle.vk_object_faults.specs.Inner.Told.{capped_fault, place_told};

use crate::cells::are_cells_few;
use crate::chains::are_chains_short;
use crate::codes::fault_in_codes;
use crate::entries::{EntryCheck, fault_in_entries};
use crate::lengths::{codes_at, entries_at, place_of_codes};
use crate::links::is_main;
use crate::names::{asked_codes, names_of};
use std::alloc::Global;
use vk_format::{ObjectFault, ObjectRule};
use vk_image_format::RawImage;
use vk_memory::Memory;

/// Where the number of `main` stands.
const MAIN_AT: u64 = 14;

fn fault(at: u64, rule: ObjectRule) -> ObjectFault
    ensures { result ≡ record { at = at; rule = rule } }
{
    ObjectFault { at, rule }
}

// Where the first bad part of the codes begins.
fn codes_fault(alloc: Global, image: &RawImage) -> Result<Option<u64>, Memory>
    ensures { IfOk result (λ told. told ≡ place_told (among_codes image.now)) }
{
    let place = place_of_codes(image)?;
    let env = names_of(alloc, image)?;
    let asked = asked_codes(alloc, image)?;
    let told = fault_in_codes(
        alloc,
        &env,
        place,
        &asked,
        codes_at(image),
        image.codes.as_slice(),
    )?;
    Ok(told)
}

// The first entry that breaks the condition.
fn entry_fault(check: EntryCheck, image: &RawImage) -> Result<Option<ObjectFault>, Memory>
    ensures { IfOk result (λ told. told ≡ option_map capped_fault (among check image.now)) }
{
    let place = place_of_codes(image)?;
    let told = fault_in_entries(
        check,
        image,
        entries_at(image, place),
        image.entries.as_slice(),
    )?;
    match told {
        Some(at) => Ok(Some(fault(at, ObjectRule::O7))),
        None => Ok(None),
    }
}

// Whether no chain of calls is too long, and the image has no more cells than the most.
fn is_runnable(alloc: Global, image: &RawImage) -> Result<bool, Memory>
    ensures { IfOk result (λ is. is ≡ (has_short_chains image.now && has_few_cells image.now)) }
{
    if !are_chains_short(alloc, image)? {
        return Ok(false);
    }
    let few = are_cells_few(alloc, image)?;
    Ok(few)
}

// Whether `main` is an ordinary entry without parameters whose result is an int.
#[tactic(auto, unfolding(crate::specs::Inner::Told::has_main))]
fn has_main(image: &RawImage) -> bool
    ensures { result ≡ has_main image.now }
{
    is_main(image, image.main)
}

fn run_fault(alloc: Global, image: &RawImage, end: u64) -> Result<Option<ObjectFault>, Memory>
    ensures { IfOk result (λ told. told ≡ option_map capped_fault (run_faults image.now end)) }
{
    if !has_main(image) {
        return Ok(Some(fault(MAIN_AT, ObjectRule::O7)));
    }
    if !is_runnable(alloc, image)? {
        return Ok(Some(fault(end, ObjectRule::O9)));
    }
    Ok(None)
}

fn link_fault(alloc: Global, image: &RawImage, end: u64) -> Result<Option<ObjectFault>, Memory>
    ensures { IfOk result (λ told. told ≡ option_map capped_fault (link_faults image.now end)) }
{
    let targets = entry_fault(EntryCheck::Targets, image)?;
    if targets.is_some() {
        return Ok(targets);
    }
    let loops = entry_fault(EntryCheck::Loops, image)?;
    if loops.is_some() {
        return Ok(loops);
    }
    run_fault(alloc, image, end)
}

fn entries_fault(alloc: Global, image: &RawImage, end: u64) -> Result<Option<ObjectFault>, Memory>
    ensures { IfOk result (λ told. told ≡ option_map capped_fault (entry_faults image.now end)) }
{
    let kinds = entry_fault(EntryCheck::Kind, image)?;
    if kinds.is_some() {
        return Ok(kinds);
    }
    let params = entry_fault(EntryCheck::Params, image)?;
    if params.is_some() {
        return Ok(params);
    }
    link_fault(alloc, image, end)
}

// Where the first fault is, and by which rule.
fn first_fault(alloc: Global, image: &RawImage, end: u64) -> Result<Option<ObjectFault>, Memory>
    ensures { IfOk result (λ told. told ≡ option_map capped_fault (all_faults image.now end)) }
{
    if image.main as usize >= image.entries.len() {
        return Ok(Some(fault(MAIN_AT, ObjectRule::O8)));
    }
    let told = codes_fault(alloc, image)?;
    match told {
        Some(at) => Ok(Some(fault(at, ObjectRule::O9))),
        None => entries_fault(alloc, image, end),
    }
}

/// The first fault of tables whose fields are complete and end at this place: `main`, a code, an entry by its code, or chains of calls.
/// Want of memory is the answer too where its place would have more than 64 bits.
pub fn image_faults(
    alloc: Global,
    image: &RawImage,
    end: u64,
) -> Result<Option<ObjectFault>, Memory>
    ensures { IfOk result (λ told. told ≡ faults_at image.now end) }
{
    let told = first_fault(alloc, image, end)?;
    match told {
        None => Ok(None),
        Some(fault) => {
            if fault.at == u64::MAX {
                return Err(Memory);
            }
            Ok(Some(fault))
        }
    }
}
