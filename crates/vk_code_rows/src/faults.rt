// The first bad part of code.

ghost use Rattle.std.specs.Prelude.{◌≡◌, ◌<◌, length, map, IfOk, IfSome};
ghost use Rattle.std.specs.List.{list_all};
ghost use Rattle.vk_code.specs.Listing.{listing_of as code_listing};
ghost use Rattle.vk_code.specs.Tests.{first_bad};
ghost use Rattle.vk_code.specs.Valid.{environment_of, fault_of};
ghost use Rattle.vk_code_format.specs.Values.{bad_part, earlier, listing_of};
ghost use Rattle.vk_code_rows.specs.Made.{has_few_params, is_near_arg, is_near_body, is_near_call, is_near_loop, made_listing, near_verdicts};

use crate::make::code_of;
use std::alloc::Global;
use vk_code::{Code, CodeFault, Env, validate};
use vk_code_format::{ArgRow, BodyRow, CodeRow, LoopRow, RoutineRow, ShapeKind, SlotRow};
use vk_memory::Memory;

fn is_near_arg(row: ArgRow) -> bool
    ensures { result ≡ is_near_arg row }
{
    match row.kind {
        ShapeKind::Vector | ShapeKind::Uniform | ShapeKind::By | ShapeKind::Literal => true,
        ShapeKind::Along | ShapeKind::Same => row.value < 256,
    }
}

// Whether the parameters that a call names have numbers of one byte.
fn is_near_call(row: &SlotRow) -> bool
    ensures { result ≡ is_near_call row.now }
{
    row.args.as_slice().iter().all(|arg| is_near_arg(*arg))
}

fn are_near_calls(rows: &[SlotRow]) -> bool
    ensures { result ≡ list_all is_near_call rows.now }
{
    rows.iter().all(|row| is_near_call(row))
}

fn has_few_params(row: &RoutineRow) -> bool
    ensures { result ≡ has_few_params row.now }
{
    row.front.params <= 65535
}

fn is_near_body(row: &BodyRow) -> bool
    ensures { result ≡ is_near_body row.now }
{
    match row {
        BodyRow::Inline(row) => has_few_params(row) && are_near_calls(row.front.slots.as_slice()),
        BodyRow::Number(_) => true,
    }
}

fn is_near_loop(row: &LoopRow) -> bool
    ensures { result ≡ is_near_loop row.now }
{
    is_near_body(&row.body)
}

// The first slot that code can't hold.
fn far_slot(rows: &[SlotRow]) -> Option<usize>
    ensures first { result ≡ first_bad (map is_near_call rows.now) }
    ensures inside { IfSome result (λ at. at < length rows.now) }
{
    for at in 0..rows.len() {
        if !is_near_call(&rows[at]) {
            return Some(at);
        }
    }
    None
}

// The first loop that code can't hold.
fn far_loop(rows: &[LoopRow]) -> Option<usize>
    ensures first { result ≡ first_bad (map is_near_loop rows.now) }
    ensures inside { IfSome result (λ at. at < length rows.now) }
{
    for at in 0..rows.len() {
        if !is_near_loop(&rows[at]) {
            return Some(at);
        }
    }
    None
}

// The first part that code can't hold.
fn far_part(row: &CodeRow) -> Option<usize>
    ensures { result ≡ first_bad (near_verdicts row.now) }
{
    if !has_few_params(&row.routine) {
        return Some(0);
    }
    let slots = row.routine.front.slots.as_slice();
    match far_slot(slots) {
        Some(at) => return Some(at + 1),
        None => {}
    }
    let loops = row.loops.as_slice();
    match far_loop(loops) {
        Some(at) => Some(at + slots.len() + 1),
        None => None,
    }
}

fn earlier(a: Option<usize>, b: Option<usize>) -> Option<usize>
    ensures { result ≡ earlier a b }
{
    match (a, b) {
        (None, b) => b,
        (a, None) => a,
        (Some(a), Some(b)) => Some(a.min(b)),
    }
}

// The first bad part of the code, as far as code can hold its numbers.
fn bad_made(alloc: Global, env: &Env, row: &CodeRow) -> Result<Option<usize>, Memory>
    ensures { IfOk result (λ part. part ≡ fault_of (environment_of env.now) (made_listing row.now)) }
{
    let code = code_of(alloc, row)?;
    match validate(&code, env) {
        Ok(()) => Ok(None),
        // Parts from this one on are told by one number.
        Err(CodeFault { at: u32::MAX }) => Err(Memory),
        Err(CodeFault { at }) => Ok(Some(at as usize)),
    }
}

/// The number of the first bad part of the code among what it may name: 0 is the head, then come the slots, the loops and the
/// instructions. Want of memory is the answer too where that number has more than 32 bits.
pub fn bad_part(alloc: Global, env: &Env, row: &CodeRow) -> Result<Option<usize>, Memory>
    ensures { IfOk result (λ part. part ≡ bad_part (environment_of env.now) (listing_of row.now)) }
{
    let bad = bad_made(alloc, env, row)?;
    Ok(earlier(far_part(row), bad))
}

/// The code that the row stands for. Want of memory is the answer too where code can't hold its numbers: then it is not valid.
pub fn exact_code_of(alloc: Global, row: &CodeRow) -> Result<Code, Memory>
    ensures { IfOk result (λ code. code_listing code ≡ listing_of row.now) }
{
    match far_part(row) {
        Some(_) => Err(Memory),
        None => code_of(alloc, row),
    }
}
