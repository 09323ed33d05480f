// Types of parameters, arguments and results of rows of code, by their numbers.

ghost use Rattle.std.specs.Prelude.{◌≡◌, map};
ghost use Rattle.vk_kinds.specs.Types.{ctype_number};
ghost use Rattle.vk_code.specs.Listing.{reg_type};
ghost use Rattle.vk_code.specs.Tests.{pairs};
ghost use Rattle.vk_code.specs.Valid.{body_regs, result_type};
ghost use Rattle.vk_code_format.specs.Values.{call_of, listing_of, site_of};
ghost use Rattle.vk_object.specs.Images.{arg_types, has_loop_types, has_slot_types, is_equal, is_function_code, param_types, result_of};
ghost use Rattle.vk_image_faults.specs.Inner.Types.{has_arg_type, has_reg_type};

use vk_code::types::is_integer;
use vk_code_format::{ArgRow, CodeRow, LoopRow, SlotRow};
use vk_kinds::{CType, MAX_PARAMETERS};

// The number of a register's type, 255 where there is no such register.
fn reg_type(regs: &[CType], register: u16) -> u8
    ensures { result ≡ reg_type regs.now register }
{
    match regs.get(usize::from(register)) {
        Some(ctype) => u8::from(*ctype),
        None => 255,
    }
}

// The number of a result's type, 255 where there is none.
fn result_type(regs: &[CType], register: Option<u16>) -> u8
    ensures { result ≡ result_type regs.now register }
{
    match register {
        Some(register) => reg_type(regs, register),
        None => 255,
    }
}

/// The types of the parameters.
pub(crate) fn param_types(code: &CodeRow) -> &[CType]
    ensures { map ctype_number result.now ≡ param_types (listing_of code.now) }
{
    let regs = code.routine.front.regs.as_slice();
    let params = regs.len().min(code.routine.front.params);
    &regs[..params]
}

/// The number of the result's type, 255 where there is none.
pub(crate) fn result_of(code: &CodeRow) -> u8
    ensures { result ≡ result_of (listing_of code.now) }
{
    result_type(
        code.routine.front.regs.as_slice(),
        code.routine.front.result,
    )
}

/// Whether it has at most 64 parameters, and an integer as its result or none.
pub(crate) fn is_function_code(code: &CodeRow) -> bool
    ensures { result ≡ is_function_code (listing_of code.now) }
{
    code.routine.front.params <= MAX_PARAMETERS
        && (is_integer(result_of(code)) || result_of(code) == 255)
}

/// Whether the code has exactly the slot's types.
pub(crate) fn has_slot_types(code: &CodeRow, slot: &SlotRow, callee: &CodeRow) -> bool
    ensures { result ≡ has_slot_types (listing_of code.now) (call_of slot.now) (listing_of callee.now) }
{
    has_arg_types(code, slot, callee)
        && result_type(code.routine.front.regs.as_slice(), slot.result) == result_of(callee)
}

// Whether the arguments have the types of the parameters.
fn has_arg_types(code: &CodeRow, slot: &SlotRow, callee: &CodeRow) -> bool
    ensures { result ≡ pairs is_equal (arg_types (listing_of code.now) (call_of slot.now)) (param_types (listing_of callee.now)) }
{
    have_types(
        code.routine.front.regs.as_slice(),
        slot.args.as_slice(),
        param_types(callee),
    )
}

// Whether these are the types of the arguments.
fn have_types(regs: &[CType], args: &[ArgRow], types: &[CType]) -> bool
    ensures { result ≡ pairs (has_arg_type regs.now) args.now types.now }
{
    if args.len() != types.len() {
        return false;
    }
    for at in 0..args.len() {
        if !has_reg_type(regs, args[at].reg, types[at]) {
            return false;
        }
    }
    true
}

fn has_reg_type(regs: &[CType], register: u16, ctype: CType) -> bool
    ensures { result ≡ has_reg_type regs.now register ctype }
{
    reg_type(regs, register) == u8::from(ctype)
}

/// Whether the body has no result, and parameters of the types of the loop's `low` and captures.
pub(crate) fn has_loop_types(code: &CodeRow, site: &LoopRow, body: &CodeRow) -> bool
    ensures { result ≡ has_loop_types (listing_of code.now) (site_of site.now) (listing_of body.now) }
{
    body.routine.front.result.is_none() && has_body_types(code, site, body)
}

// Whether the body's parameters have the types of the loop's registers.
fn has_body_types(code: &CodeRow, site: &LoopRow, body: &CodeRow) -> bool
    ensures { result ≡ pairs is_equal (map (reg_type code.now.routine.front.regs) (body_regs (site_of site.now))) (param_types (listing_of body.now)) }
{
    have_body_types(code.routine.front.regs.as_slice(), site, param_types(body))
}

fn have_body_types(regs: &[CType], site: &LoopRow, types: &[CType]) -> bool
    ensures { result ≡ pairs (has_reg_type regs.now) (body_regs (site_of site.now)) types.now }
{
    match types {
        [] => false,
        [first, rest @ ..] => has_reg_type(regs, site.low, *first)
            && have_reg_types(regs, site.captures.as_slice(), rest),
    }
}

// Whether these are the types of the registers.
fn have_reg_types(regs: &[CType], registers: &[u16], types: &[CType]) -> bool
    ensures { result ≡ pairs (has_reg_type regs.now) registers.now types.now }
{
    if registers.len() != types.len() {
        return false;
    }
    for at in 0..registers.len() {
        if !has_reg_type(regs, registers[at], types[at]) {
            return false;
        }
    }
    true
}
