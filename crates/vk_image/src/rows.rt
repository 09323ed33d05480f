// Entries by themselves.

ghost use Rattle.std.specs.Prelude.{◌≡◌};
ghost use Rattle.std.specs.List.{list_all};
ghost use Rattle.vk_object.specs.Images.{are_entries, entry_before, is_entry_byte, is_number_of, is_row, is_some_entry};
ghost use Rattle.vk_object.specs.Parameters.{are_kinds};
ghost use Rattle.vk_object.specs.Tables.{entry_list_of, tables_of};
ghost use Rattle.vk_object.specs.Texts.{ascend};
ghost use Rattle.vk_image.specs.Inner.Entries.{has_entry_text, has_params};

use crate::kinds::{has_lanes, is_variant};
use vk_kinds::Param;
use vk_object::parameters::are_kinds;
use vk_object::texts::{is_before, is_word};
use vk_object::{Entry, EntryKind, ImageTables, LoopTargets};

/// The most bytes of the text of an entry.
pub const MAX_ENTRY_TEXT: usize = 4096;

/// Whether each entry is in range, and its code and the entries that it calls are there.
pub(crate) fn are_rows(tables: &ImageTables) -> bool
    ensures { result ≡ list_all (is_row (tables_of tables.now)) (tables_of tables.now).entries }
{
    are_rows_among(tables, &tables.entries)
}

fn are_rows_among(tables: &ImageTables, entries: &[Entry]) -> bool
    ensures { result ≡ list_all (λ e. is_row (tables_of tables.now) (entry_list_of e)) entries.now }
{
    entries.iter().all(|entry| is_row(tables, entry))
}

fn is_row(tables: &ImageTables, entry: &Entry) -> bool
    ensures { result ≡ is_row (tables_of tables.now) (entry_list_of entry.now) }
{
    has_entry_text(&entry.text)
        && has_lanes(entry.kind, entry.lanes)
        && (entry.code as usize) < tables.codes.len()
        && has_params(entry.kind, &entry.params)
        && are_targets(tables, &entry.targets)
        && are_loops(tables, &entry.loops)
}

// Whether it is a letter, a digit, an underscore or a dot.
fn is_entry_byte(byte: u8) -> bool
    ensures { result ≡ is_entry_byte byte }
{
    is_word(byte) || byte == b'.'
}

// Whether each byte may stand in the text of an entry.
fn are_entry_bytes(bytes: &[u8]) -> bool
    ensures { result ≡ list_all is_entry_byte bytes.now }
{
    bytes.iter().all(|byte| is_entry_byte(*byte))
}

// Whether it has 1 to 4096 letters, digits, underscores and dots.
fn has_entry_text(text: &[u8]) -> bool
    ensures { result ≡ has_entry_text text.now }
{
    1 <= text.len() && text.len() <= MAX_ENTRY_TEXT && are_entry_bytes(text)
}

// Whether a variant's parameters are in range, and other kinds have none.
fn has_params(kind: EntryKind, params: &[Param]) -> bool
    ensures { result ≡ has_params kind params.now }
{
    if is_variant(kind) {
        are_kinds(params)
    } else {
        params.is_empty()
    }
}

/// Whether the number is that of an entry.
fn is_entry_number(tables: &ImageTables, number: u32) -> bool
    ensures { result ≡ is_number_of (tables_of tables.now).entries number }
{
    (number as usize) < tables.entries.len()
}

fn are_targets(tables: &ImageTables, targets: &[u32]) -> bool
    ensures { result ≡ list_all (is_number_of (tables_of tables.now).entries) targets.now }
{
    targets
        .iter()
        .all(|target| is_entry_number(tables, *target))
}

fn are_loops(tables: &ImageTables, loops: &[LoopTargets]) -> bool
    ensures { result ≡ list_all (are_entries (tables_of tables.now)) loops.now }
{
    loops.iter().all(|targets| are_entries(tables, *targets))
}

fn are_entries(tables: &ImageTables, targets: LoopTargets) -> bool
    ensures { result ≡ are_entries (tables_of tables.now) targets }
{
    is_entry_number(tables, targets.chunk) && is_entry_number(tables, targets.rest)
}

/// Whether `main`, where there is one, is an entry.
pub(crate) fn is_some_entry(tables: &ImageTables, main: Option<u32>) -> bool
    ensures { result ≡ is_some_entry (tables_of tables.now) main }
{
    match main {
        Some(number) => is_entry_number(tables, number),
        None => true,
    }
}

/// Whether the entries ascend, by their texts and then by their lanes.
pub(crate) fn do_entries_ascend(tables: &ImageTables) -> bool
    ensures { result ≡ ascend entry_before (tables_of tables.now).entries }
{
    do_rows_ascend(&tables.entries)
}

fn do_rows_ascend(entries: &[Entry]) -> bool
    ensures { result ≡ ascend (λ a b. entry_before (entry_list_of a) (entry_list_of b)) entries.now }
{
    for at in 1..entries.len() {
        if !entry_before(&entries[at - 1], &entries[at]) {
            return false;
        }
    }
    true
}

fn entry_before(a: &Entry, b: &Entry) -> bool
    ensures { result ≡ entry_before (entry_list_of a.now) (entry_list_of b.now) }
{
    is_before(&a.text, &b.text) || (!is_before(&b.text, &a.text) && a.lanes < b.lanes)
}
