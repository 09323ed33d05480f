// The first bad part of the codes.

ghost use Rattle.std.specs.Prelude.{◌≡◌, ◌||◌, ℕ, map, not, IfOk};
ghost use Rattle.vk_kinds.specs.Types.{ctype_number};
ghost use Rattle.vk_code.specs.Tests.{pairs};
ghost use Rattle.vk_code.specs.Valid.{environment_of, result_type};
ghost use Rattle.vk_code_format.specs.Fields.{first_along};
ghost use Rattle.vk_code_format.specs.Values.{listing_of};
ghost use Rattle.vk_code_rows.specs.Sums.{capped};
ghost use Rattle.vk_object.specs.Objects.{has_types, is_equal, is_simd, names_of};
ghost use Rattle.vk_object_format.specs.declared.rows.RawObject.{RawObject};
ghost use Rattle.vk_object_format.specs.Object.{bad_part_of, codes_in};
ghost use Rattle.vk_object_format.specs.Values.{function_of, head_of, object_of};
ghost use Rattle.vk_object_faults.specs.Inner.Told.{fault_in_code, fault_in_function, faults_along, function_size, place_told};

use crate::lengths::{PLACE, code_size, front_length, function_size};
use std::alloc::Global;
use vk_code::Env;
use vk_code_format::CodeRow;
use vk_code_rows::faults::bad_part;
use vk_code_rows::places::part_at;
use vk_kinds::CType;
use vk_memory::Memory;
use vk_object_format::{RawCodes, RawFunction, RawObject};

// Whether the types are these.
fn are_same(xs: &[CType], ys: &[CType]) -> bool
    ensures { result ≡ pairs is_equal (map ctype_number xs.now) (map ctype_number ys.now) }
{
    let [x, xs @ ..] = xs else {
        return matches!(ys, []);
    };
    let [y, ys @ ..] = ys else {
        return false;
    };
    u8::from(*x) == u8::from(*y) && are_same(xs, ys)
}

// The number of the type of a result, 255 where there is none.
fn result_type(regs: &[CType], register: Option<u16>) -> u8
    ensures { result ≡ result_type regs.now register }
{
    match register {
        None => 255,
        Some(register) => match regs.get(usize::from(register)) {
            Some(ctype) => u8::from(*ctype),
            None => 255,
        },
    }
}

// Whether the code has the function's types.
fn has_types(function: &RawFunction, row: &CodeRow) -> bool
    ensures { result ≡ has_types (head_of function.now) (listing_of row.now) }
{
    let front = &row.routine.front;
    let regs = front.regs.as_slice();
    let params = front.params.min(regs.len());
    front.params == function.params.len()
        && are_same(&regs[..params], function.params.as_slice())
        && result_type(regs, front.result) == u8::from(function.result)
}

// Whether it is lane code where it must be.
fn has_kind(function: &RawFunction, row: &CodeRow) -> bool
    ensures { result ≡ (not (is_simd (function_of function.now)) || row.now.routine.front.lane_code) }
{
    function.directives.len() == 0 || row.routine.front.lane_code
}

// The first bad part of a code of the function.
fn bad_part_of(
    alloc: Global,
    env: &Env,
    function: &RawFunction,
    row: &CodeRow,
) -> Result<Option<usize>, Memory>
    ensures { IfOk result (λ part. (o : RawObject) → environment_of env.now ≡ names_of (object_of o) → part ≡ bad_part_of (object_of o) (function_of function.now) row.now) }
{
    if !has_types(function, row) || !has_kind(function, row) {
        return Ok(Some(0));
    }
    bad_part(alloc, env, row)
}

// Where the first bad part of a code begins that stands at this place.
fn fault_in_code(
    alloc: Global,
    env: &Env,
    function: &RawFunction,
    at: u64,
    row: &CodeRow,
) -> Result<Option<u64>, Memory>
    ensures { IfOk result (λ told. (o : RawObject) → environment_of env.now ≡ names_of (object_of o) → (n p : ℕ) → at ≡ capped p → told ≡ place_told (fault_in_code o function.now n p row.now)) }
{
    match bad_part_of(alloc, env, function, row)? {
        None => Ok(None),
        Some(part) => Ok(Some(at.saturating_add(part_at(PLACE, row, part)))),
    }
}

// The same for codes that stand one after the other.
fn fault_in_lanes(
    alloc: Global,
    env: &Env,
    function: &RawFunction,
    at: u64,
    rows: &[CodeRow],
) -> Result<Option<u64>, Memory>
    ensures { IfOk result (λ told. (o : RawObject) → environment_of env.now ≡ names_of (object_of o) → (n p : ℕ) → at ≡ capped p → told ≡ place_told (faults_along o function.now n p rows.now)) }
{
    let mut place = at;
    for i in 0..rows.len() {
        let told = fault_in_code(alloc, env, function, place, &rows[i])?;
        if told.is_some() {
            return Ok(told);
        }
        place = place.saturating_add(code_size(&rows[i]));
    }
    Ok(None)
}

// The same for the codes of a function.
fn fault_in_codes(
    alloc: Global,
    env: &Env,
    function: &RawFunction,
    at: u64,
    codes: &Option<RawCodes>,
) -> Result<Option<u64>, Memory>
    ensures { IfOk result (λ told. (o : RawObject) → environment_of env.now ≡ names_of (object_of o) → (p : ℕ) → at ≡ capped p → told ≡ place_told (faults_along o function.now 0 p (codes_in codes.now))) }
{
    match codes {
        None => Ok(None),
        Some(codes) => {
            let told = fault_in_code(alloc, env, function, at, &codes.scalar)?;
            if told.is_some() {
                return Ok(told);
            }
            let behind = at.saturating_add(code_size(&codes.scalar));
            fault_in_lanes(alloc, env, function, behind, codes.lanes.as_slice())
        }
    }
}

// The same for a function that stands at this place.
fn fault_in_function(
    alloc: Global,
    env: &Env,
    at: u64,
    function: &RawFunction,
) -> Result<Option<u64>, Memory>
    ensures { IfOk result (λ told. (o : RawObject) → environment_of env.now ≡ names_of (object_of o) → (n p : ℕ) → at ≡ capped p → told ≡ place_told (fault_in_function o n p function.now)) }
{
    let codes_at = at.saturating_add(front_length(function));
    fault_in_codes(alloc, env, function, codes_at, &function.codes)
}

/// The same for functions that stand one after the other.
pub(crate) fn fault_in_functions(
    alloc: Global,
    env: &Env,
    at: u64,
    functions: &[RawFunction],
) -> Result<Option<u64>, Memory>
    ensures { IfOk result (λ told. (o : RawObject) → environment_of env.now ≡ names_of (object_of o) → (n p : ℕ) → at ≡ capped p → told ≡ place_told (first_along function_size (fault_in_function o) n p functions.now)) }
{
    let mut place = at;
    for i in 0..functions.len() {
        let told = fault_in_function(alloc, env, place, &functions[i])?;
        if told.is_some() {
            return Ok(told);
        }
        place = place.saturating_add(function_size(&functions[i]));
    }
    Ok(None)
}
