// Kinds of entries.

ghost use Rattle.std.specs.Prelude.{◌≡◌};
ghost use Rattle.vk_object.specs.Images.{has_lanes, is_chunk, is_ordinary, is_rest, is_variant};

use vk_object::EntryKind;

/// The most lanes of an entry.
pub const MAX_LANES: u16 = 256;

pub(crate) fn is_ordinary(kind: EntryKind) -> bool
    ensures { result ≡ is_ordinary kind }
{
    match kind {
        EntryKind::Ordinary => true,
        EntryKind::Scalar | EntryKind::N | EntryKind::M => false,
        EntryKind::Chunk | EntryKind::Rest => false,
    }
}

pub(crate) fn is_variant(kind: EntryKind) -> bool
    ensures { result ≡ is_variant kind }
{
    match kind {
        EntryKind::N | EntryKind::M => true,
        EntryKind::Ordinary | EntryKind::Scalar => false,
        EntryKind::Chunk | EntryKind::Rest => false,
    }
}

pub(crate) fn is_chunk(kind: EntryKind) -> bool
    ensures { result ≡ is_chunk kind }
{
    match kind {
        EntryKind::Chunk => true,
        EntryKind::Ordinary | EntryKind::Scalar | EntryKind::N => false,
        EntryKind::M | EntryKind::Rest => false,
    }
}

pub(crate) fn is_rest(kind: EntryKind) -> bool
    ensures { result ≡ is_rest kind }
{
    match kind {
        EntryKind::Rest => true,
        EntryKind::Ordinary | EntryKind::Scalar | EntryKind::N => false,
        EntryKind::M | EntryKind::Chunk => false,
    }
}

/// Whether an entry of the kind may have so many lanes: variants and chunks have 2 to 256, the others one.
pub(crate) fn has_lanes(kind: EntryKind, lanes: u16) -> bool
    ensures { result ≡ has_lanes kind lanes }
{
    if is_variant(kind) || is_chunk(kind) {
        2 <= lanes && lanes <= MAX_LANES
    } else {
        lanes == 1
    }
}
