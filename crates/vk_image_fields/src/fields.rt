// What the numbers of fields stand for.

ghost use Rattle.std.specs.Prelude.{◌≡◌, slice_get};
ghost use Rattle.std.specs.List.{list_all};
ghost use Rattle.vk_object.specs.Images.{has_lanes, is_chunk, is_entry_byte, is_letter, is_variant, is_vl};
ghost use Rattle.vk_image_format.specs.Image.{entry_kinds, is_entry_text, isa_of};

use vk_kinds::{Isa, Target};
use vk_object::EntryKind;
use vk_object::texts::is_word;

/// The most bytes of the text of an entry.
pub const MAX_ENTRY_TEXT: usize = 4096;

/// The most lanes of an entry.
pub const MAX_LANES: u16 = 256;

/// The instruction set of a letter.
pub fn isa_of(letter: u8) -> Option<Isa>
    ensures { result ≡ isa_of letter }
{
    match letter {
        b'b' => Some(Isa::B),
        b'c' => Some(Isa::C),
        b'd' => Some(Isa::D),
        b'e' => Some(Isa::E),
        b'n' => Some(Isa::N),
        b's' => Some(Isa::S),
        _ => None,
    }
}

/// Whether the instruction set is one of the target.
pub fn is_letter(target: Target, isa: Isa) -> bool
    ensures { result ≡ is_letter target isa }
{
    match target {
        Target::X86 => match isa {
            Isa::B | Isa::C | Isa::D | Isa::E => true,
            Isa::N | Isa::S => false,
        },
        Target::Arm => match isa {
            Isa::B | Isa::C | Isa::D | Isa::E => false,
            Isa::N | Isa::S => true,
        },
    }
}

/// Whether the vector length stands with its letter: one of SVE with `s`, and 0 with all others.
pub fn is_vl(isa: Isa, vl: u16) -> bool
    ensures { result ≡ is_vl isa vl }
{
    match isa {
        Isa::B | Isa::C | Isa::D | Isa::E | Isa::N => vl == 0,
        Isa::S => vl == 128 || vl == 256 || vl == 512 || vl == 1024 || vl == 2048,
    }
}

/// What an entry is.
pub fn entry_kind_of(number: u8) -> Option<EntryKind>
    ensures { result ≡ slice_get entry_kinds number }
{
    match number {
        0 => Some(EntryKind::Ordinary),
        1 => Some(EntryKind::Scalar),
        2 => Some(EntryKind::N),
        3 => Some(EntryKind::M),
        4 => Some(EntryKind::Chunk),
        5 => Some(EntryKind::Rest),
        _ => None,
    }
}

/// Whether an entry of the kind has the parameters of its code.
pub fn is_variant(kind: EntryKind) -> bool
    ensures { result ≡ is_variant kind }
{
    match kind {
        EntryKind::N | EntryKind::M => true,
        EntryKind::Ordinary | EntryKind::Scalar => false,
        EntryKind::Chunk | EntryKind::Rest => false,
    }
}

/// Whether an entry of the kind runs several iterations of a loop.
pub fn is_chunk(kind: EntryKind) -> bool
    ensures { result ≡ is_chunk kind }
{
    match kind {
        EntryKind::Chunk => true,
        EntryKind::Ordinary | EntryKind::Scalar | EntryKind::N => false,
        EntryKind::M | EntryKind::Rest => false,
    }
}

/// Whether an entry of the kind may have so many lanes: variants and chunks have 2 to 256, the others one.
pub fn has_lanes(kind: EntryKind, lanes: u16) -> bool
    ensures { result ≡ has_lanes kind lanes }
{
    if is_variant(kind) || is_chunk(kind) {
        2 <= lanes && lanes <= MAX_LANES
    } else {
        lanes == 1
    }
}

// Whether it is a letter, a digit, an underscore or a dot.
fn is_entry_byte(byte: u8) -> bool
    ensures { result ≡ is_entry_byte byte }
{
    is_word(byte) || byte == b'.'
}

fn are_entry_bytes(bytes: &[u8]) -> bool
    ensures { result ≡ list_all is_entry_byte bytes.now }
{
    bytes.iter().all(|byte| is_entry_byte(*byte))
}

/// Whether it has 1 to 4096 letters, digits, underscores and dots.
pub fn is_entry_text(text: &[u8]) -> bool
    ensures { result ≡ is_entry_text text.now }
{
    1 <= text.len() && text.len() <= MAX_ENTRY_TEXT && are_entry_bytes(text)
}
