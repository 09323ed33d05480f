// Which code is valid.

ghost use Rattle.std.specs.Prelude.{◌≡◌, ◌↔◌, ◌+◌, ◌∷◌, IsOk, length, map, nat_lt};
ghost use Rattle.std.specs.List.{list_all};
ghost use Rattle.vk_code.specs.Listing.{body_of, call_site_of, listing_of, routine_of, simd_site_of};
ghost use Rattle.vk_code.specs.Tests.{all_good, first_bad, pairs};
ghost use Rattle.vk_code.specs.Valid.{IsValid, answer_of, body_regs, environment_of, fault_numbered, fault_of, has_good_bounds, has_good_captures, has_params, is_good_guard, is_body, is_good_body, is_good_loop, is_good_slot, is_good_routine, is_type_of, body_verdicts};

use crate::blocks::bad_instruction;
use crate::code::{Body, Code, Guard, LoopSite, Slot};
use crate::env::Env;
use crate::parts::{MAX_COUNT, is_good_guard, is_good_head, is_good_simdlen, is_good_slot};
use crate::types::{is_promoted, reg_type};
use vk_kinds::CType;

/// The most blocks that stand in each other.
pub const MAX_NESTING: u32 = 64;

/// The number of the first part of a code that is not valid: 0 is the head, then come the slots, the loops and the instructions.
/// A number above 4294967295 is told as that one.
#[derive(Clone, Copy, PartialEq, Eq, Debug)]
pub struct CodeFault {
    pub at: u32,
}

/// Whether the code is valid among what it may name, or its first part that is not. It takes no memory.
pub fn validate(code: &Code, env: &Env) -> Result<(), CodeFault>
    ensures valid { IsOk result ↔ IsValid (environment_of env.now) (listing_of code.now) }
    ensures first { result ≡ answer_of (fault_of (environment_of env.now) (listing_of code.now)) }
{
    first_fault(code, env)
}

// The answer by the first part that is not good.
fn first_fault(code: &Code, env: &Env) -> Result<(), CodeFault>
    ensures { result ≡ answer_of (fault_of (environment_of env.now) (listing_of code.now)) }
{
    if !is_good_head(code) {
        return Err(CodeFault { at: 0 });
    }
    match bad_slot(code, env, &code.slots) {
        Some(at) => return Err(fault_at(1, at)),
        None => {}
    }
    match bad_loop(code, env, &code.loops) {
        Some(at) => return Err(fault_at(1 + code.slots.len(), at)),
        None => {}
    }
    match bad_instruction(code, env, MAX_NESTING, 0, code.instrs.len()) {
        Some(at) => Err(fault_at(1 + code.slots.len() + code.loops.len(), at)),
        None => Ok(()),
    }
}

// The fault of the part with this number behind so many.
fn fault_at(before: usize, at: usize) -> CodeFault
    ensures { result ≡ fault_numbered (before + at) }
{
    CodeFault {
        at: u32::try_from(before.saturating_add(at)).unwrap_or(u32::MAX),
    }
}

// The number of the first slot that is not good.
fn bad_slot(code: &Code, env: &Env, slots: &[Slot]) -> Option<usize>
    ensures { result ≡ first_bad (map (is_good_slot (environment_of env.now) (routine_of code.now)) (map call_site_of slots.now)) }
{
    for at in 0..slots.len() {
        if !is_good_slot(code, env, &slots[at]) {
            return Some(at);
        }
    }
    None
}

// The number of the first loop that is not good.
fn bad_loop(code: &Code, env: &Env, loops: &[LoopSite]) -> Option<usize>
    ensures { result ≡ first_bad (map (is_good_loop (environment_of env.now) (routine_of code.now)) (map simd_site_of loops.now)) }
{
    for at in 0..loops.len() {
        if !is_good_loop(code, env, &loops[at]) {
            return Some(at);
        }
    }
    None
}

// Whether the loop's registers and its body are good.
fn is_good_loop(code: &Code, env: &Env, site: &LoopSite) -> bool
    ensures { result ≡ is_good_loop (environment_of env.now) (routine_of code.now) (simd_site_of site.now) }
{
    has_good_bounds(code, site) && has_good_registers(code, site) && is_body(code, env, site)
}

// Whether the code may have loops, and the bounds have one type of 4 or 8 bytes.
fn has_good_bounds(code: &Code, site: &LoopSite) -> bool
    ensures { result ≡ has_good_bounds (routine_of code.now) (simd_site_of site.now) }
{
    !code.lane_code
        && is_good_simdlen(site.simdlen)
        && is_promoted(reg_type(code, site.low))
        && reg_type(code, site.high) == reg_type(code, site.low)
}

// Whether the captures are registers, and the guards pointers.
fn has_good_registers(code: &Code, site: &LoopSite) -> bool
    ensures { result ≡ has_good_captures (routine_of code.now) (simd_site_of site.now) }
{
    site.captures.len() <= MAX_COUNT
        && site.guards.len() <= MAX_COUNT
        && are_registers(code, &site.captures)
        && are_guards(code, &site.guards)
}

// Whether they are registers.
fn are_registers(code: &Code, registers: &[u16]) -> bool
    ensures { result ≡ list_all (λ r. nat_lt r (length (routine_of code.now).regs)) registers.now }
{
    registers
        .iter()
        .all(|register| usize::from(*register) < code.regs.len())
}

// Whether they are pointers.
fn are_guards(code: &Code, guards: &[Guard]) -> bool
    ensures { result ≡ list_all (is_good_guard (routine_of code.now)) guards.now }
{
    guards.iter().all(|guard| is_good_guard(code, *guard))
}

// Whether the loop has its body where it is to be, and that is good.
fn is_body(code: &Code, env: &Env, site: &LoopSite) -> bool
    ensures { result ≡ is_body (environment_of env.now) (routine_of code.now) (body_regs (simd_site_of site.now)) (body_of site.now.body) }
{
    match &site.body {
        Body::Own(body) => !env.image && is_good_body(code, env, site, body),
        Body::Number(_) => env.image,
    }
}

// Whether the body is lane code without result and loops, with the loop's types, and valid.
fn is_good_body(code: &Code, env: &Env, site: &LoopSite, body: &Code) -> bool
    ensures { result ≡ is_good_body (environment_of env.now) (routine_of code.now) (body_regs (simd_site_of site.now)) (routine_of body.now) }
{
    body.lane_code
        && body.result.is_none()
        && body.loops.is_empty()
        && has_params(code, site, body)
        && is_good_routine(body, env)
}

// Whether the body's parameters have the types of the loop's registers.
fn has_params(code: &Code, site: &LoopSite, body: &Code) -> bool
    ensures { result ≡ has_params (routine_of code.now) (body_regs (simd_site_of site.now)) (routine_of body.now) }
{
    let params = body.regs.len().min(usize::from(body.params));
    are_body_types(code, &body.regs[..params], site.low, &site.captures)
}

// Whether these are the types of the register `low` and the captures.
fn are_body_types(code: &Code, types: &[CType], low: u16, captures: &[u16]) -> bool
    ensures { result ≡ pairs (is_type_of (routine_of code.now)) types.now (low ∷ captures.now) }
{
    match types {
        [] => false,
        [first, rest @ ..] => is_type_of(code, *first, low) && are_types_of(code, rest, captures),
    }
}

// Whether these are the types of the registers.
fn are_types_of(code: &Code, types: &[CType], registers: &[u16]) -> bool
    ensures { result ≡ pairs (is_type_of (routine_of code.now)) types.now registers.now }
{
    if types.len() != registers.len() {
        return false;
    }
    for at in 0..types.len() {
        if !is_type_of(code, types[at], registers[at]) {
            return false;
        }
    }
    true
}

// Whether this is the type of the register.
fn is_type_of(code: &Code, ctype: CType, register: u16) -> bool
    ensures { result ≡ is_type_of (routine_of code.now) ctype register }
{
    u8::from(ctype) == reg_type(code, register)
}

// Whether all parts but the loops are good.
fn is_good_routine(code: &Code, env: &Env) -> bool
    ensures { result ≡ is_good_routine (environment_of env.now) (routine_of code.now) }
{
    is_good_head(code) && are_good_slots(code, env) && are_good_instructions(code, env)
}

// Whether the slots are good.
fn are_good_slots(code: &Code, env: &Env) -> bool
    ensures { result ≡ all_good (map (is_good_slot (environment_of env.now) (routine_of code.now)) (routine_of code.now).slots) }
{
    match bad_slot(code, env, &code.slots) {
        Some(_) => false,
        None => true,
    }
}

// Whether the instructions are good.
fn are_good_instructions(code: &Code, env: &Env) -> bool
    ensures { result ≡ all_good (body_verdicts (environment_of env.now) (routine_of code.now)) }
{
    match bad_instruction(code, env, MAX_NESTING, 0, code.instrs.len()) {
        Some(_) => false,
        None => true,
    }
}
