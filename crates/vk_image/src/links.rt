// Entries, their codes, and the entries that they call.

ghost use Rattle.std.specs.Prelude.{◌≡◌};
ghost use Rattle.std.specs.List.{list_all};
ghost use Rattle.vk_code.specs.Listing.{call_site_of, listing_of, numbered_code, simd_site_of};
ghost use Rattle.vk_code.specs.Tests.{holds, pairs};
ghost use Rattle.vk_object.specs.Images.{code_of, has_loop_types, has_slot_types, is_body_entry, is_call, is_chunk, is_entry, is_equal, is_linked, is_loop, is_main, is_rest, may_call, suits};
ghost use Rattle.vk_object.specs.Tables.{entry_list_of, tables_of};
ghost use Rattle.vk_image.specs.Inner.Entries.{has_body_code, has_main_code, is_main_entry};

use crate::kinds::{is_chunk, is_ordinary, is_rest, is_variant};
use crate::types::{has_loop_types, has_slot_types, is_function_code, param_types, result_of};
use vk_code::{Body, Code, LoopSite, Slot};
use vk_object::parameters::are_typed;
use vk_object::{Entry, EntryKind, ImageTables, LoopTargets};

/// Whether each entry suits its code, and calls entries that it may call.
pub(crate) fn are_linked(tables: &ImageTables) -> bool
    ensures { result ≡ list_all (is_entry (tables_of tables.now)) (tables_of tables.now).entries }
{
    are_linked_among(tables, &tables.entries)
}

fn are_linked_among(tables: &ImageTables, entries: &[Entry]) -> bool
    ensures { result ≡ list_all (λ e. is_entry (tables_of tables.now) (entry_list_of e)) entries.now }
{
    entries.iter().all(|entry| is_entry(tables, entry))
}

fn is_entry(tables: &ImageTables, entry: &Entry) -> bool
    ensures { result ≡ is_entry (tables_of tables.now) (entry_list_of entry.now) }
{
    match tables.codes.get(entry.code as usize) {
        Some(code) => is_linked(tables, entry, code),
        None => false,
    }
}

fn is_linked(tables: &ImageTables, entry: &Entry, code: &Code) -> bool
    ensures { result ≡ is_linked (tables_of tables.now) (entry_list_of entry.now) (listing_of code.now) }
{
    suits(entry, code) && has_calls(tables, entry, code) && has_loops(tables, entry, code)
}

// Whether each slot has its target.
fn has_calls(tables: &ImageTables, entry: &Entry, code: &Code) -> bool
    ensures { result ≡ pairs (is_call (tables_of tables.now) (entry_list_of entry.now) (listing_of code.now)) (listing_of code.now).routine.slots (entry_list_of entry.now).targets }
{
    are_calls(tables, entry, code, &code.slots, &entry.targets)
}

// Whether each loop has its targets.
fn has_loops(tables: &ImageTables, entry: &Entry, code: &Code) -> bool
    ensures { result ≡ pairs (is_loop (tables_of tables.now) (listing_of code.now)) (listing_of code.now).loops (entry_list_of entry.now).loops }
{
    are_loops(tables, code, &code.loops, &entry.loops)
}

// Whether the code is lane code where it must be, that of a function where it must be, and has the types of the parameters.
fn suits(entry: &Entry, code: &Code) -> bool
    ensures { result ≡ suits (entry_list_of entry.now) (listing_of code.now) }
{
    (is_ordinary(entry.kind) || code.lane_code)
        && (is_chunk(entry.kind) || is_rest(entry.kind) || is_function_code(code))
        && (!is_variant(entry.kind) || are_typed(param_types(code), &entry.params))
}

// Whether the targets are those of the slots.
fn are_calls(
    tables: &ImageTables,
    entry: &Entry,
    code: &Code,
    slots: &[Slot],
    targets: &[u32],
) -> bool
    ensures { result ≡ pairs (λ s n. is_call (tables_of tables.now) (entry_list_of entry.now) (listing_of code.now) (call_site_of s) n) slots.now targets.now }
{
    if slots.len() != targets.len() {
        return false;
    }
    for at in 0..slots.len() {
        if !is_call(tables, entry, code, &slots[at], targets[at]) {
            return false;
        }
    }
    true
}

// Whether the number is that of an entry that the slot may call, with its types.
fn is_call(tables: &ImageTables, entry: &Entry, code: &Code, slot: &Slot, number: u32) -> bool
    ensures { result ≡ is_call (tables_of tables.now) (entry_list_of entry.now) (listing_of code.now) (call_site_of slot.now) number }
{
    match tables.entries.get(number as usize) {
        Some(target) => may_call(entry, target) && has_callee(tables, code, slot, target),
        None => false,
    }
}

// Whether an entry may call another in a slot: scalar code, a variant of its lanes, and from an ordinary one an ordinary one.
fn may_call(entry: &Entry, target: &Entry) -> bool
    ensures { result ≡ may_call (entry_list_of entry.now) (entry_list_of target.now) }
{
    match target.kind {
        EntryKind::Ordinary => is_ordinary(entry.kind),
        EntryKind::Scalar => true,
        EntryKind::N | EntryKind::M => target.lanes == entry.lanes,
        EntryKind::Chunk | EntryKind::Rest => false,
    }
}

// Whether the code of the target has the slot's types.
fn has_callee(tables: &ImageTables, code: &Code, slot: &Slot, target: &Entry) -> bool
    ensures { result ≡ holds (has_slot_types (listing_of code.now) (call_site_of slot.now)) (code_of (tables_of tables.now) (entry_list_of target.now)) }
{
    match tables.codes.get(target.code as usize) {
        Some(callee) => has_slot_types(code, slot, callee),
        None => false,
    }
}

// Whether the targets are those of the loops.
fn are_loops(tables: &ImageTables, code: &Code, sites: &[LoopSite], loops: &[LoopTargets]) -> bool
    ensures { result ≡ pairs (λ l t. is_loop (tables_of tables.now) (listing_of code.now) (simd_site_of l) t) sites.now loops.now }
{
    if sites.len() != loops.len() {
        return false;
    }
    for at in 0..sites.len() {
        if !is_loop(tables, code, &sites[at], loops[at]) {
            return false;
        }
    }
    true
}

fn is_loop(tables: &ImageTables, code: &Code, site: &LoopSite, targets: LoopTargets) -> bool
    ensures { result ≡ is_loop (tables_of tables.now) (listing_of code.now) (simd_site_of site.now) targets }
{
    is_chunk_entry(tables, code, site, targets.chunk)
        && is_rest_entry(tables, code, site, targets.rest)
}

fn is_chunk_entry(tables: &ImageTables, code: &Code, site: &LoopSite, number: u32) -> bool
    ensures { result ≡ is_body_entry (tables_of tables.now) (listing_of code.now) (simd_site_of site.now) is_chunk number }
{
    match tables.entries.get(number as usize) {
        Some(target) => is_chunk(target.kind) && has_body_code(tables, code, site, target),
        None => false,
    }
}

fn is_rest_entry(tables: &ImageTables, code: &Code, site: &LoopSite, number: u32) -> bool
    ensures { result ≡ is_body_entry (tables_of tables.now) (listing_of code.now) (simd_site_of site.now) is_rest number }
{
    match tables.entries.get(number as usize) {
        Some(target) => is_rest(target.kind) && has_body_code(tables, code, site, target),
        None => false,
    }
}

// Whether the target has the code of the loop's body, with the loop's types.
fn has_body_code(tables: &ImageTables, code: &Code, site: &LoopSite, target: &Entry) -> bool
    ensures { result ≡ has_body_code (tables_of tables.now) (listing_of code.now) (simd_site_of site.now) (entry_list_of target.now) }
{
    is_body_of(site, target.code) && has_types_of_loop(tables, code, site, target)
}

fn is_body_of(site: &LoopSite, code: u32) -> bool
    ensures { result ≡ holds (is_equal code) (numbered_code (simd_site_of site.now).body) }
{
    match &site.body {
        Body::Own(_) => false,
        Body::Number(number) => code == *number,
    }
}

fn has_types_of_loop(tables: &ImageTables, code: &Code, site: &LoopSite, target: &Entry) -> bool
    ensures { result ≡ holds (has_loop_types (listing_of code.now) (simd_site_of site.now)) (code_of (tables_of tables.now) (entry_list_of target.now)) }
{
    match tables.codes.get(target.code as usize) {
        Some(body) => has_loop_types(code, site, body),
        None => false,
    }
}

/// Whether `main`, where there is one, is ordinary, without parameters, and its result is an int.
pub(crate) fn is_main(tables: &ImageTables, main: Option<u32>) -> bool
    ensures { result ≡ is_main (tables_of tables.now) main }
{
    match main {
        Some(number) => is_main_number(tables, number),
        None => true,
    }
}

fn is_main_number(tables: &ImageTables, number: u32) -> bool
    ensures { result ≡ is_main_entry (tables_of tables.now) number }
{
    match tables.entries.get(number as usize) {
        Some(entry) => is_ordinary(entry.kind) && has_main_code(tables, entry),
        None => false,
    }
}

fn has_main_code(tables: &ImageTables, entry: &Entry) -> bool
    ensures { result ≡ has_main_code (tables_of tables.now) (entry_list_of entry.now) }
{
    match tables.codes.get(entry.code as usize) {
        Some(code) => code.params == 0 && result_of(code) == 2,
        None => false,
    }
}
