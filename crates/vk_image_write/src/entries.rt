// Entries.

ghost use Rattle.std.specs.Prelude.{◌≡◌, ◌++◌, map, OnOk};
ghost use Rattle.std.specs.List.{flat_map};
ghost use Rattle.byteorder.specs.Endian.{little_bytes};
ghost use Rattle.vk_object.specs.Tables.{entry_list_of};
ghost use Rattle.vk_image_format.specs.Image.{kind_number};
ghost use Rattle.vk_image_write.specs.Inner.Bytes.{entries_bytes, entry_bytes, loop_targets_bytes};

use vk_code_write::parts::put_text;
use vk_code_write::{FileKind, put_all};
use vk_format::fields::{put_count_u32, put_u8, put_u16, put_u32};
use vk_memory::Memory;
use vk_object::{Entry, EntryKind, LoopTargets};

/// Writes entries.
pub(crate) fn put_entries(out: &mut Vec<u8>, entries: &[Entry]) -> Result<(), Memory>
    ensures written { OnOk result (out.new.items ≡ out.old.items ++ entries_bytes (map entry_list_of entries.now)) }
{
    put_count_u32(out, entries.len())?;
    put_each_entry(out, entries)
}

fn put_each_entry(out: &mut Vec<u8>, entries: &[Entry]) -> Result<(), Memory>
    ensures written { OnOk result (out.new.items ≡ out.old.items ++ flat_map (λ e. entry_bytes (entry_list_of e)) entries.now) }
{
    for entry in entries {
        put_entry(out, entry)?;
    }
    Ok(())
}

#[tactic(auto, unfolding(crate::specs::Inner::Bytes::entry_bytes))]
fn put_entry(out: &mut Vec<u8>, entry: &Entry) -> Result<(), Memory>
    ensures written { OnOk result (out.new.items ≡ out.old.items ++ entry_bytes (entry_list_of entry.now)) }
{
    put_text(out, &entry.text)?;
    put_kind(out, entry.kind)?;
    put_u16(out, entry.lanes)?;
    put_u32(out, entry.code)?;
    put_all(entry.params.as_slice(), FileKind::Image, out)?;
    put_targets(out, &entry.targets)?;
    put_loops(out, &entry.loops)
}

fn put_kind(out: &mut Vec<u8>, kind: EntryKind) -> Result<(), Memory>
    ensures written { OnOk result (out.new.items ≡ out.old.items ++ little_bytes 1 (kind_number kind)) }
{
    match kind {
        EntryKind::Ordinary => put_u8(out, 0),
        EntryKind::Scalar => put_u8(out, 1),
        EntryKind::N => put_u8(out, 2),
        EntryKind::M => put_u8(out, 3),
        EntryKind::Chunk => put_u8(out, 4),
        EntryKind::Rest => put_u8(out, 5),
    }
}

fn put_targets(out: &mut Vec<u8>, targets: &[u32]) -> Result<(), Memory>
    ensures written { OnOk result (out.new.items ≡ out.old.items ++ flat_map (little_bytes 4) targets.now) }
{
    for target in targets {
        put_u32(out, *target)?;
    }
    Ok(())
}

fn put_loops(out: &mut Vec<u8>, loops: &[LoopTargets]) -> Result<(), Memory>
    ensures written { OnOk result (out.new.items ≡ out.old.items ++ flat_map loop_targets_bytes loops.now) }
{
    for targets in loops {
        put_loop(out, *targets)?;
    }
    Ok(())
}

#[tactic(auto, unfolding(crate::specs::Inner::Bytes::loop_targets_bytes))]
fn put_loop(out: &mut Vec<u8>, targets: LoopTargets) -> Result<(), Memory>
    ensures written { OnOk result (out.new.items ≡ out.old.items ++ loop_targets_bytes targets) }
{
    put_u32(out, targets.chunk)?;
    put_u32(out, targets.rest)
}
