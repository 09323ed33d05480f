// Entries by their codes, and the entries that they call.

ghost use Rattle.std.specs.Prelude.{◌≡◌};
ghost use Rattle.vk_code.specs.Listing.{numbered_code};
ghost use Rattle.vk_code.specs.Tests.{holds};
ghost use Rattle.vk_code_format.specs.Values.{call_of, listing_of, site_of};
ghost use Rattle.vk_image_format.specs.Values.{entry_of, tables_of};
ghost use Rattle.vk_object.specs.Images.{code_of, has_loop_types, has_slot_types, is_body_entry, is_call, is_chunk, is_equal, is_ordinary, is_rest, is_variant, may_call};
ghost use Rattle.vk_image.specs.Inner.Entries.{has_body_code, has_main_code, is_main_entry};

use crate::types::{has_loop_types, has_slot_types, result_of};
use vk_code_format::{BodyRow, CodeRow, LoopRow, SlotRow};
use vk_image_format::{RawEntry, RawImage};
use vk_object::EntryKind;

pub(crate) fn is_ordinary(kind: EntryKind) -> bool
    ensures { result ≡ is_ordinary kind }
{
    match kind {
        EntryKind::Ordinary => true,
        EntryKind::Scalar | EntryKind::N | EntryKind::M => false,
        EntryKind::Chunk | EntryKind::Rest => false,
    }
}

pub(crate) fn is_variant(kind: EntryKind) -> bool
    ensures { result ≡ is_variant kind }
{
    match kind {
        EntryKind::N | EntryKind::M => true,
        EntryKind::Ordinary | EntryKind::Scalar => false,
        EntryKind::Chunk | EntryKind::Rest => false,
    }
}

pub(crate) fn is_chunk(kind: EntryKind) -> bool
    ensures { result ≡ is_chunk kind }
{
    match kind {
        EntryKind::Chunk => true,
        EntryKind::Ordinary | EntryKind::Scalar | EntryKind::N => false,
        EntryKind::M | EntryKind::Rest => false,
    }
}

pub(crate) fn is_rest(kind: EntryKind) -> bool
    ensures { result ≡ is_rest kind }
{
    match kind {
        EntryKind::Rest => true,
        EntryKind::Ordinary | EntryKind::Scalar | EntryKind::N => false,
        EntryKind::M | EntryKind::Chunk => false,
    }
}

/// Whether the number is that of an entry that the slot may call, with its types.
pub(crate) fn is_call(
    image: &RawImage,
    entry: &RawEntry,
    code: &CodeRow,
    slot: &SlotRow,
    number: u32,
) -> bool
    ensures { result ≡ is_call (tables_of image.now) (entry_of entry.now) (listing_of code.now) (call_of slot.now) number }
{
    match image.entries.as_slice().get(number as usize) {
        Some(target) => may_call(entry, target) && has_callee(image, code, slot, target),
        None => false,
    }
}

// Whether an entry may call another in a slot: scalar code, a variant of its lanes, and from an ordinary one an ordinary one.
fn may_call(entry: &RawEntry, target: &RawEntry) -> bool
    ensures { result ≡ may_call (entry_of entry.now) (entry_of target.now) }
{
    match target.front.name.kind {
        EntryKind::Ordinary => is_ordinary(entry.front.name.kind),
        EntryKind::Scalar => true,
        EntryKind::N | EntryKind::M => target.front.name.lanes == entry.front.name.lanes,
        EntryKind::Chunk | EntryKind::Rest => false,
    }
}

// Whether the code of the target has the slot's types.
fn has_callee(image: &RawImage, code: &CodeRow, slot: &SlotRow, target: &RawEntry) -> bool
    ensures { result ≡ holds (has_slot_types (listing_of code.now) (call_of slot.now)) (code_of (tables_of image.now) (entry_of target.now)) }
{
    match image.codes.as_slice().get(target.front.code as usize) {
        Some(callee) => has_slot_types(code, slot, callee),
        None => false,
    }
}

/// Whether the number is that of a chunk entry of the loop's body.
pub(crate) fn is_chunk_entry(image: &RawImage, code: &CodeRow, site: &LoopRow, number: u32) -> bool
    ensures { result ≡ is_body_entry (tables_of image.now) (listing_of code.now) (site_of site.now) is_chunk number }
{
    match image.entries.as_slice().get(number as usize) {
        Some(target) => {
            is_chunk(target.front.name.kind) && has_body_code(image, code, site, target)
        }
        None => false,
    }
}

/// Whether the number is that of a rest entry of the loop's body.
pub(crate) fn is_rest_entry(image: &RawImage, code: &CodeRow, site: &LoopRow, number: u32) -> bool
    ensures { result ≡ is_body_entry (tables_of image.now) (listing_of code.now) (site_of site.now) is_rest number }
{
    match image.entries.as_slice().get(number as usize) {
        Some(target) => {
            is_rest(target.front.name.kind) && has_body_code(image, code, site, target)
        }
        None => false,
    }
}

// Whether the target has the code of the loop's body, with the loop's types.
fn has_body_code(image: &RawImage, code: &CodeRow, site: &LoopRow, target: &RawEntry) -> bool
    ensures { result ≡ has_body_code (tables_of image.now) (listing_of code.now) (site_of site.now) (entry_of target.now) }
{
    is_body_of(site, target.front.code) && has_types_of_loop(image, code, site, target)
}

fn is_body_of(site: &LoopRow, code: u32) -> bool
    ensures { result ≡ holds (is_equal code) (numbered_code (site_of site.now).body) }
{
    match &site.body {
        BodyRow::Inline(_) => false,
        BodyRow::Number(number) => code == *number,
    }
}

fn has_types_of_loop(image: &RawImage, code: &CodeRow, site: &LoopRow, target: &RawEntry) -> bool
    ensures { result ≡ holds (has_loop_types (listing_of code.now) (site_of site.now)) (code_of (tables_of image.now) (entry_of target.now)) }
{
    match image.codes.as_slice().get(target.front.code as usize) {
        Some(body) => has_loop_types(code, site, body),
        None => false,
    }
}

/// Whether the number is that of an ordinary entry without parameters whose result is an int.
pub(crate) fn is_main(image: &RawImage, number: u32) -> bool
    ensures { result ≡ is_main_entry (tables_of image.now) number }
{
    match image.entries.as_slice().get(number as usize) {
        Some(entry) => is_ordinary(entry.front.name.kind) && has_main_code(image, entry),
        None => false,
    }
}

fn has_main_code(image: &RawImage, entry: &RawEntry) -> bool
    ensures { result ≡ has_main_code (tables_of image.now) (entry_of entry.now) }
{
    match image.codes.as_slice().get(entry.front.code as usize) {
        Some(code) => code.routine.front.params == 0 && result_of(code) == 2,
        None => false,
    }
}
