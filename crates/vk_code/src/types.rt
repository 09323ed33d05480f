// The types of registers, by their numbers.

ghost use Rattle.std.specs.Prelude.{◌≡◌};
ghost use Rattle.vk_code.specs.Listing.{reg_type, routine_of};
ghost use Rattle.vk_code.specs.Valid.{address_type, is_canonical, is_copy, is_integer, is_pointer, is_promoted, is_right, is_shift, result_type};

use crate::code::Code;
use crate::env::ObjectHead;
use vk_types::{Op2, Ty, Word};

/// The number of a register's type, 255 where there is no such register.
pub fn reg_type(code: &Code, register: u16) -> u8
    ensures { result ≡ reg_type (routine_of code.now).regs register }
{
    match code.regs.get(usize::from(register)) {
        Some(ctype) => u8::from(*ctype),
        None => 255,
    }
}

/// The number of a result's type, 255 where there is none.
pub fn result_type(code: &Code, register: Option<u16>) -> u8
    ensures { result ≡ result_type (routine_of code.now).regs register }
{
    match register {
        Some(register) => reg_type(code, register),
        None => 255,
    }
}

/// The number of the type of an object's address.
pub(crate) fn address_type(object: ObjectHead) -> u8
    ensures { result ≡ address_type object }
{
    if object.fixed {
        16 + u8::from(object.ty)
    } else {
        8 + u8::from(object.ty)
    }
}

pub fn is_integer(number: u8) -> bool
    ensures { result ≡ is_integer number }
{
    number < 8
}

pub fn is_pointer(number: u8) -> bool
    ensures { result ≡ is_pointer number }
{
    8 <= number && number < 24
}

/// Whether it is the number of `int`, `long` or one of their unsigned types.
pub(crate) fn is_promoted(number: u8) -> bool
    ensures { result ≡ is_promoted number }
{
    number == 2 || number == 3 || number == 6 || number == 7
}

/// Whether `d` may be a copy of `a`: of its type, or a read pointer where that is a written one.
pub(crate) fn is_copy(d: u8, a: u8) -> bool
    ensures { result ≡ is_copy d a }
{
    a < 24 && (d == a || (8 <= a && a < 16 && d == a + 8))
}

/// Whether the right operand of an operator at the type `number` may have the type `right`.
pub(crate) fn is_right(op: Op2, number: u8, right: u8) -> bool
    ensures { result ≡ is_right op number right }
{
    if is_shift(op) {
        is_integer(right)
    } else {
        right == number
    }
}

fn is_shift(op: Op2) -> bool
    ensures { result ≡ is_shift op }
{
    match op {
        Op2::Shl | Op2::Shr => true,
        Op2::Add | Op2::Sub | Op2::Mul | Op2::Div | Op2::Rem | Op2::And | Op2::Or | Op2::Xor =>
            false,
        Op2::Eq | Op2::Ne | Op2::Lt | Op2::Le => false,
    }
}

/// Whether the pattern is that of a number of the type.
pub fn is_canonical(ty: Ty, word: Word) -> bool
    ensures { result ≡ is_canonical ty word.0 }
{
    let n = word.0.cast_signed();
    match ty {
        Ty::I8 => -0x80 <= n && n <= 0x7f,
        Ty::I16 => -0x8000 <= n && n <= 0x7fff,
        Ty::I32 => -0x8000_0000 <= n && n <= 0x7fff_ffff,
        Ty::I64 => true,
        Ty::U8 => word.0 <= 0xff,
        Ty::U16 => word.0 <= 0xffff,
        Ty::U32 => word.0 <= 0xffff_ffff,
        Ty::U64 => true,
    }
}
