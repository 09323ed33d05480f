// How many bytes the tables of an image have. Numbers of bytes stay at the greatest `u64` once they would pass it.

ghost use Rattle.std.specs.Prelude.{◌≡◌, ◌+◌, length, IfOk};
ghost use Rattle.std.specs.List.{sum_by};
ghost use Rattle.vk_code_format.specs.Codes.{in_image};
ghost use Rattle.vk_code_read.specs.Inner.Left.{place_of};
ghost use Rattle.vk_code_rows.specs.Sums.{capped};
ghost use Rattle.vk_image_format.specs.Image.{array_length, code_field, codes_at, loops_field, targets_field};
ghost use Rattle.vk_image_faults.specs.Inner.Told.{code_size, entries_place, entry_size};

use vk_code_format::CodeRow;
use vk_code_read::CodePlace;
use vk_code_rows::places::code_length;
use vk_image_format::{RawArray, RawEntry, RawImage};
use vk_memory::Memory;
use vk_object_fields::fields::bytes_of;

/// Where the codes of an image stand. More codes than there are numbers do not come.
pub(crate) fn place_of_codes(image: &RawImage) -> Result<CodePlace, Memory>
    ensures { IfOk result (λ place. place_of place ≡ in_image (length image.now.codes)) }
{
    match u32::try_from(image.codes.len()) {
        Ok(codes) => Ok(CodePlace::Image { codes }),
        Err(_) => Err(Memory),
    }
}

fn array_length(array: &RawArray) -> u64
    ensures { result ≡ capped (array_length array.now) }
{
    let elements = (array.elements.len() as u64).saturating_mul(bytes_of(array.ty) as u64);
    elements
        .saturating_add(array.text.len() as u64)
        .saturating_add(12)
}

fn arrays_length(arrays: &[RawArray]) -> u64
    ensures { result ≡ capped (sum_by array_length arrays.now) }
{
    let mut bytes: u64 = 0;
    for array in arrays {
        bytes = bytes.saturating_add(array_length(array));
    }
    bytes
}

/// How many bytes the code has.
pub(crate) fn code_size(place: CodePlace, row: &CodeRow) -> u64
    ensures { result ≡ capped (code_size (place_of place) row.now) }
{
    code_length(place, row)
}

fn codes_length(place: CodePlace, rows: &[CodeRow]) -> u64
    ensures { result ≡ capped (sum_by (code_size (place_of place)) rows.now) }
{
    let mut bytes: u64 = 0;
    for row in rows {
        bytes = bytes.saturating_add(code_size(place, row));
    }
    bytes
}

/// Where the first code begins.
pub(crate) fn codes_at(image: &RawImage) -> u64
    ensures { result ≡ capped (codes_at image.now) }
{
    arrays_length(image.arrays.as_slice()).saturating_add(26)
}

/// Where the first entry begins.
pub(crate) fn entries_at(image: &RawImage, place: CodePlace) -> u64
    ensures { result ≡ capped (entries_place image.now (place_of place)) }
{
    codes_at(image)
        .saturating_add(codes_length(place, image.codes.as_slice()))
        .saturating_add(4)
}

/// How many bytes of an entry are before the number of its code.
pub(crate) fn code_field(entry: &RawEntry) -> u64
    ensures { result ≡ capped (code_field entry.now) }
{
    (entry.front.name.text.len() as u64).saturating_add(5)
}

/// How many bytes of an entry are before its targets.
pub(crate) fn targets_field(entry: &RawEntry) -> u64
    ensures { result ≡ capped (targets_field entry.now) }
{
    let params = (entry.front.params.len() as u64).saturating_mul(9);
    code_field(entry).saturating_add(4).saturating_add(params)
}

/// How many bytes of an entry are before those of its loops.
pub(crate) fn loops_field(entry: &RawEntry) -> u64
    ensures { result ≡ capped (loops_field entry.now) }
{
    let targets = (entry.targets.len() as u64).saturating_mul(4);
    targets_field(entry).saturating_add(targets)
}

/// How many bytes an entry has.
#[tactic(auto, unfolding(crate::specs::Inner::Told::entry_size))]
pub(crate) fn entry_size(entry: &RawEntry) -> u64
    ensures { result ≡ capped (entry_size entry.now) }
{
    let loops = (entry.loops.len() as u64).saturating_mul(8);
    loops_field(entry).saturating_add(loops)
}
