// What code of an image may name, and which codes have to be lane code.

ghost use Rattle.std.specs.Prelude.{◌≡◌, ◌<◌, ◌==◌, ◌||◌, ℕ, false, length, map, replicate, IfOk};
ghost use Rattle.std.specs.List.{list_any};
ghost use Rattle.vk_code.specs.Listing.{numbered_code};
ghost use Rattle.vk_code.specs.Tests.{holds};
ghost use Rattle.vk_code.specs.Valid.{environment_of};
ghost use Rattle.vk_code_format.specs.Values.{site_of};
ghost use Rattle.vk_image_format.specs.Image.{asks_for};
ghost use Rattle.vk_image_format.specs.Values.{array_of, entry_of, tables_of};
ghost use Rattle.vk_object.specs.Images.{is_equal, names_of, object_of};
ghost use Rattle.vk_image.specs.Inner.Rounds.{is_told};
ghost use Rattle.vk_image_faults.specs.Inner.Told.{asks, asks_by_loops, asks_itself};

use crate::links::is_ordinary;
use std::alloc::Global;
use vk_code::{Env, ObjectHead};
use vk_code_format::{BodyRow, CodeRow, LoopRow};
use vk_image_format::{RawArray, RawEntry, RawImage};
use vk_memory::Memory;

fn object_of(array: &RawArray) -> ObjectHead
    ensures { result ≡ object_of (array_of array.now) }
{
    ObjectHead {
        ty: array.ty,
        fixed: array.fixed,
    }
}

fn objects_of(alloc: Global, arrays: &[RawArray]) -> Result<Vec<ObjectHead>, Memory>
    ensures { IfOk result (λ objects. objects.items ≡ map (λ a. object_of (array_of a)) arrays.now) }
{
    let mut objects = Vec::new(alloc);
    for array in arrays {
        objects.push(object_of(array))?;
    }
    Ok(objects)
}

/// What code may name: the arrays.
pub(crate) fn names_of(alloc: Global, image: &RawImage) -> Result<Env, Memory>
    ensures { IfOk result (λ env. environment_of env ≡ names_of (tables_of image.now)) }
{
    let objects = objects_of(alloc, image.arrays.as_slice())?;
    Ok(Env {
        image: true,
        functions: Vec::new(alloc),
        objects,
    })
}

// A code is asked for. Numbers that name none ask for nothing.
fn mark(asked: &mut [bool], number: u32)
    ensures same { length asked.new ≡ length asked.old }
    ensures told { (n : ℕ) → n < length asked.old → is_told asked.new n ≡ (is_told asked.old n || (number == n)) }
{
    let at = number as usize;
    if at < asked.len() {
        asked[at] = true;
    }
}

// A loop asks for the code of its body.
fn mark_body(asked: &mut [bool], site: &LoopRow)
    ensures same { length asked.new ≡ length asked.old }
    ensures told { (n : ℕ) → n < length asked.old → is_told asked.new n ≡ (is_told asked.old n || holds (is_equal n) (numbered_code (site_of site.now).body)) }
{
    match &site.body {
        BodyRow::Inline(_) => {}
        BodyRow::Number(number) => mark(asked, *number),
    }
}

fn mark_bodies(asked: &mut [bool], sites: &[LoopRow])
    ensures same { length asked.new ≡ length asked.old }
    ensures told { (n : ℕ) → n < length asked.old → is_told asked.new n ≡ (is_told asked.old n || list_any (λ l. holds (is_equal n) (numbered_code (site_of l).body)) sites.now) }
{
    for at in 0..sites.len() {
        mark_body(asked, &sites[at]);
    }
}

// An entry asks for its code, where it is not ordinary.
fn mark_code(asked: &mut [bool], entry: &RawEntry)
    ensures same { length asked.new ≡ length asked.old }
    ensures told { (n : ℕ) → n < length asked.old → is_told asked.new n ≡ (is_told asked.old n || asks_itself entry.now n) }
{
    if !is_ordinary(entry.front.name.kind) {
        mark(asked, entry.front.code);
    }
}

// The loops of its code ask for theirs.
fn mark_loops(asked: &mut [bool], codes: &[CodeRow], entry: &RawEntry)
    ensures same { length asked.new ≡ length asked.old }
    ensures told { (n : ℕ) → n < length asked.old → is_told asked.new n ≡ (is_told asked.old n || asks_by_loops codes.now entry.now n) }
{
    match codes.get(entry.front.code as usize) {
        Some(code) => mark_bodies(asked, code.loops.as_slice()),
        None => {}
    }
}

fn mark_entries(asked: &mut [bool], codes: &[CodeRow], entries: &[RawEntry])
    ensures same { length asked.new ≡ length asked.old }
    ensures told { (n : ℕ) → n < length asked.old → is_told asked.new n ≡ (is_told asked.old n || list_any (asks codes.now n) entries.now) }
{
    for at in 0..entries.len() {
        mark_code(asked, &entries[at]);
        mark_loops(asked, codes, &entries[at]);
    }
}

// A row by which none of so many codes is asked for.
fn none_asked(alloc: Global, count: usize) -> Result<Vec<bool>, Memory>
    ensures items { IfOk result (λ asked. asked.items ≡ replicate count false) }
    ensures count { IfOk result (λ asked. length asked.items ≡ count) }
{
    Ok(vec![in alloc; false; count]?)
}

/// Which codes have to be lane code.
pub(crate) fn asked_codes(alloc: Global, image: &RawImage) -> Result<Vec<bool>, Memory>
    ensures { IfOk result (λ asked. (n : ℕ) → n < length image.now.codes → is_told asked.items n ≡ list_any (asks_for (tables_of image.now) n) (tables_of image.now).entries) }
{
    let mut asked = none_asked(alloc, image.codes.len())?;
    mark_entries(&mut asked, image.codes.as_slice(), image.entries.as_slice());
    Ok(asked)
}
