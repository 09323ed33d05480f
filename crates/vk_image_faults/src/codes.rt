// The first bad part of the codes.

ghost use Rattle.std.specs.Prelude.{◌≡◌, ◌+◌, ℕ, IfOk};
ghost use Rattle.std.specs.List.{list_any};
ghost use Rattle.vk_code.specs.Valid.{environment_of};
ghost use Rattle.vk_code_format.specs.Fields.{first_along};
ghost use Rattle.vk_code_read.specs.Inner.Left.{place_of};
ghost use Rattle.vk_code_rows.specs.Sums.{capped};
ghost use Rattle.vk_image.specs.Inner.Rounds.{is_told};
ghost use Rattle.vk_image_format.specs.declared.rows.RawImage.{RawImage};
ghost use Rattle.vk_image_format.specs.Image.{asks_for, bad_part_of};
ghost use Rattle.vk_image_format.specs.Values.{tables_of};
ghost use Rattle.vk_image_faults.specs.Inner.Told.{Knows, are_asked, code_size, fault_in_code};
ghost use Rattle.vk_object_faults.specs.Inner.Told.{place_told};

use crate::lengths::code_size;
use std::alloc::Global;
use vk_code::Env;
use vk_code_format::CodeRow;
use vk_code_read::CodePlace;
use vk_code_rows::faults::bad_part;
use vk_code_rows::places::part_at;
use vk_memory::Memory;

// The first bad part of a code, which may be asked to be lane code.
fn bad_part_of(
    alloc: Global,
    env: &Env,
    asked: bool,
    row: &CodeRow,
) -> Result<Option<usize>, Memory>
    ensures { IfOk result (λ part. (i : RawImage) (k : ℕ) → Knows i env.now → asked ≡ list_any (asks_for (tables_of i) k) (tables_of i).entries → part ≡ bad_part_of (tables_of i) k row.now) }
{
    if !row.routine.front.lane_code && asked {
        return Ok(Some(0));
    }
    bad_part(alloc, env, row)
}

// Where the first bad part of a code begins that stands at this place.
fn fault_in_code(
    alloc: Global,
    env: &Env,
    place: CodePlace,
    asked: bool,
    at: u64,
    row: &CodeRow,
) -> Result<Option<u64>, Memory>
    ensures { IfOk result (λ told. (i : RawImage) (k p : ℕ) → Knows i env.now → asked ≡ list_any (asks_for (tables_of i) k) (tables_of i).entries → at ≡ capped p → told ≡ place_told (fault_in_code i (place_of place) k p row.now)) }
{
    match bad_part_of(alloc, env, asked, row)? {
        None => Ok(None),
        Some(part) => Ok(Some(at.saturating_add(part_at(place, row, part)))),
    }
}

/// The same for codes that stand one after the other.
pub(crate) fn fault_in_codes(
    alloc: Global,
    env: &Env,
    place: CodePlace,
    asked: &[bool],
    at: u64,
    rows: &[CodeRow],
) -> Result<Option<u64>, Memory>
    ensures { IfOk result (λ told. (i : RawImage) (p : ℕ) → Knows i env.now → are_asked i asked.now rows.now → at ≡ capped p → told ≡ place_told (first_along (code_size (place_of place)) (fault_in_code i (place_of place)) 0 p rows.now)) }
{
    let mut here = at;
    for k in 0..rows.len() {
        let told = fault_in_code(alloc, env, place, is_asked(asked, k), here, &rows[k])?;
        if told.is_some() {
            return Ok(told);
        }
        here = here.saturating_add(code_size(place, &rows[k]));
    }
    Ok(None)
}

fn is_asked(asked: &[bool], number: usize) -> bool
    ensures { result ≡ is_told asked.now number }
{
    match asked.get(number) {
        Some(told) => *told,
        None => false,
    }
}
