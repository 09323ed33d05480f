// Which instructions are good.

ghost use Rattle.std.specs.Prelude.{◌≡◌, ◌==◌, slice_get};
ghost use Rattle.vk_types.specs.Formats.{type_number};
ghost use Rattle.vk_code.specs.Listing.{reg_type, routine_of};
ghost use Rattle.vk_code.specs.Tests.{holds};
ghost use Rattle.vk_code.specs.Valid.{address_type, are_compared, are_masks, are_operands, environment_of, is_good_instr, is_load, is_moved, is_store, is_typed, is_written_mask};

use crate::code::Code;
use crate::env::Env;
use crate::instruction::{Instr, Operation};
use crate::types::{
    address_type, is_canonical, is_copy, is_integer, is_pointer, is_promoted, is_right, reg_type,
};
use vk_types::Ty;

/// Whether the instruction stands for an operation with its types, under a mask that is there.
pub(crate) fn is_good_instr(code: &Code, env: &Env, instr: &Instr) -> bool
    ensures { result ≡ is_good_instr (environment_of env.now) (routine_of code.now) instr.now }
{
    if instr.m >= code.masks {
        return false;
    }
    match instr.operation() {
        Some(operation) => is_typed(code, env, operation),
        None => false,
    }
}

// Whether the operation has its types, and names what is there.
fn is_typed(code: &Code, env: &Env, operation: Operation) -> bool
    ensures { result ≡ is_typed (environment_of env.now) (routine_of code.now) operation }
{
    match operation {
        Operation::Const { ty, d, value } => reg_type(code, d) == u8::from(ty)
            && is_canonical(ty, value),
        Operation::Copy { d, a } => is_copy(reg_type(code, d), reg_type(code, a)),
        Operation::Convert { d, a } => is_integer(reg_type(code, d))
            && is_integer(reg_type(code, a)),
        Operation::Binary { op, ty, d, a, b } => are_operands(code, ty, d, a)
            && is_right(op, u8::from(ty), reg_type(code, b)),
        Operation::Compare { ty, d, a, b, .. } => are_compared(code, ty, d, a, b),
        Operation::Unary { ty, d, a, .. } => are_operands(code, ty, d, a),
        Operation::Lane { d } => reg_type(code, d) == 3,
        Operation::Load { d, a } => is_load(reg_type(code, d), reg_type(code, a)),
        Operation::Store { a, b } => is_store(reg_type(code, a), reg_type(code, b)),
        Operation::PtrAdd { d, a, b } => is_moved(
            reg_type(code, d),
            reg_type(code, a),
            reg_type(code, b),
        ),
        Operation::Addr { d, object } => is_address(code, env, d, object),
        Operation::MaskOf { d, a } => is_written_mask(code.masks, d)
            && is_integer(reg_type(code, a)),
        Operation::MaskAnd { d, a, b }
        | Operation::MaskOr { d, a, b }
        | Operation::MaskBut { d, a, b } => are_masks(code.masks, d, a, b),
        Operation::Loop { .. } => true,
        Operation::Call { slot } => (slot as usize) < code.slots.len(),
        Operation::Print { a } => !code.lane_code && reg_type(code, a) == 3,
        Operation::SimdLoop { number } => !code.lane_code && (number as usize) < code.loops.len(),
    }
}

// Whether `d` and `a` have the promoted type.
fn are_operands(code: &Code, ty: Ty, d: u16, a: u16) -> bool
    ensures { result ≡ are_operands (routine_of code.now) (type_number ty) d a }
{
    let number = u8::from(ty);
    is_promoted(number) && reg_type(code, d) == number && reg_type(code, a) == number
}

// Whether `a` and `b` have the promoted type, and `d` is an `int`.
fn are_compared(code: &Code, ty: Ty, d: u16, a: u16, b: u16) -> bool
    ensures { result ≡ are_compared (routine_of code.now) (type_number ty) d a b }
{
    let number = u8::from(ty);
    is_promoted(number)
        && reg_type(code, d) == 2
        && reg_type(code, a) == number
        && reg_type(code, b) == number
}

// Whether `a` is a pointer to the type of `d`.
fn is_load(d: u8, a: u8) -> bool
    ensures { result ≡ is_load d a }
{
    is_integer(d) && (a == d + 8 || a == d + 16)
}

// Whether `a` is a written pointer to the type of `b`.
fn is_store(a: u8, b: u8) -> bool
    ensures { result ≡ is_store a b }
{
    is_integer(b) && a == b + 8
}

// Whether `d` has the type of the pointer `a`, and `b` is an integer.
fn is_moved(d: u8, a: u8, b: u8) -> bool
    ensures { result ≡ is_moved d a b }
{
    is_pointer(a) && d == a && is_integer(b)
}

// Whether `d` has the type of the object's address.
fn is_address(code: &Code, env: &Env, d: u16, object: u32) -> bool
    ensures { result ≡ holds (λ o. reg_type (routine_of code.now).regs d == address_type o) (slice_get (environment_of env.now).objects object) }
{
    match env.objects.get(object as usize) {
        Some(object) => reg_type(code, d) == address_type(*object),
        None => false,
    }
}

// Whether the mask may be written.
fn is_written_mask(masks: u16, d: u16) -> bool
    ensures { result ≡ is_written_mask masks d }
{
    0 < d && d < masks
}

// Whether the mask may be written from the two others.
fn are_masks(masks: u16, d: u16, a: u16, b: u16) -> bool
    ensures { result ≡ are_masks masks d a b }
{
    is_written_mask(masks, d) && a < masks && b < masks
}
