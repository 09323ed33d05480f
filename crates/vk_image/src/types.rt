// Types of parameters, arguments and results, by their numbers.

ghost use Rattle.std.specs.Prelude.{◌≡◌, map};
ghost use Rattle.vk_kinds.specs.Types.{ctype_number};
ghost use Rattle.vk_code.specs.Listing.{call_site_of, listing_of, reg_type, routine_of, simd_site_of};
ghost use Rattle.vk_code.specs.Tests.{pairs};
ghost use Rattle.vk_code.specs.Valid.{body_regs};
ghost use Rattle.vk_object.specs.Images.{arg_types, has_loop_types, has_slot_types, is_equal, is_function_code, param_types, result_of};
ghost use Rattle.vk_image.specs.Inner.Types.{has_arg_type, has_reg_type};

use vk_code::types::{is_integer, reg_type, result_type};
use vk_code::{Code, LoopSite, Slot, SlotArg};
use vk_kinds::{CType, MAX_PARAMETERS};

/// The types of the parameters.
pub(crate) fn param_types(code: &Code) -> &[CType]
    ensures { map ctype_number result.now ≡ param_types (listing_of code.now) }
{
    let params = code.regs.len().min(usize::from(code.params));
    &code.regs[..params]
}

/// The number of the result's type, 255 where there is none.
pub(crate) fn result_of(code: &Code) -> u8
    ensures { result ≡ result_of (listing_of code.now) }
{
    result_type(code, code.result)
}

/// Whether it has at most 64 parameters, and an integer as its result or none.
pub(crate) fn is_function_code(code: &Code) -> bool
    ensures { result ≡ is_function_code (listing_of code.now) }
{
    usize::from(code.params) <= MAX_PARAMETERS
        && (is_integer(result_of(code)) || result_of(code) == 255)
}

/// Whether the code has exactly the slot's types.
pub(crate) fn has_slot_types(code: &Code, slot: &Slot, callee: &Code) -> bool
    ensures { result ≡ has_slot_types (listing_of code.now) (call_site_of slot.now) (listing_of callee.now) }
{
    has_arg_types(code, slot, callee) && result_type(code, slot.result) == result_of(callee)
}

// Whether the arguments have the types of the parameters.
fn has_arg_types(code: &Code, slot: &Slot, callee: &Code) -> bool
    ensures { result ≡ pairs is_equal (arg_types (listing_of code.now) (call_site_of slot.now)) (param_types (listing_of callee.now)) }
{
    have_types(code, &slot.args, param_types(callee))
}

// Whether these are the types of the arguments.
fn have_types(code: &Code, args: &[SlotArg], types: &[CType]) -> bool
    ensures { result ≡ pairs (has_arg_type (routine_of code.now)) args.now types.now }
{
    if args.len() != types.len() {
        return false;
    }
    for at in 0..args.len() {
        if !has_reg_type(code, args[at].reg, types[at]) {
            return false;
        }
    }
    true
}

fn has_reg_type(code: &Code, register: u16, ctype: CType) -> bool
    ensures { result ≡ has_reg_type (routine_of code.now) register ctype }
{
    reg_type(code, register) == u8::from(ctype)
}

/// Whether the body has no result, and parameters of the types of the loop's `low` and captures.
pub(crate) fn has_loop_types(code: &Code, site: &LoopSite, body: &Code) -> bool
    ensures { result ≡ has_loop_types (listing_of code.now) (simd_site_of site.now) (listing_of body.now) }
{
    body.result.is_none() && has_body_types(code, site, body)
}

// Whether the body's parameters have the types of the loop's registers.
fn has_body_types(code: &Code, site: &LoopSite, body: &Code) -> bool
    ensures { result ≡ pairs is_equal (map (reg_type (routine_of code.now).regs) (body_regs (simd_site_of site.now))) (param_types (listing_of body.now)) }
{
    have_body_types(code, site, param_types(body))
}

fn have_body_types(code: &Code, site: &LoopSite, types: &[CType]) -> bool
    ensures { result ≡ pairs (has_reg_type (routine_of code.now)) (body_regs (simd_site_of site.now)) types.now }
{
    match types {
        [] => false,
        [first, rest @ ..] => has_reg_type(code, site.low, *first)
            && have_reg_types(code, &site.captures, rest),
    }
}

// Whether these are the types of the registers.
fn have_reg_types(code: &Code, registers: &[u16], types: &[CType]) -> bool
    ensures { result ≡ pairs (has_reg_type (routine_of code.now)) registers.now types.now }
{
    if registers.len() != types.len() {
        return false;
    }
    for at in 0..registers.len() {
        if !has_reg_type(code, registers[at], types[at]) {
            return false;
        }
    }
    true
}
