// Numbers and patterns of words.

ghost use Rattle.std.specs.Prelude.{◌≡◌, ◌^◌, pos, neg_ℤ, ◌≤ℤ◌, ◌*ℤ◌, ◌+ℤ◌, ◌-ℤ◌, ◌<◌};
ghost use Rattle.vk_types.specs.Numbers.{number_of, word_of, wrap_number};
ghost use Rattle.vk_object.specs.Machine.{in_elements, moved_by};
ghost use Rattle.vk_object.specs.Memory.{at_offset, offset_of};

use vk_kinds::CType;
use vk_types::{Ty, Word, size, wrap};

/// The number that any pattern stands for.
pub fn number_in(ty: Ty, word: Word) -> i128
    ensures number { result ≡ number_of ty word.0 }
    ensures low { neg_ℤ (pos (2 ^ 63)) ≤ℤ result }
    ensures high { result ≤ℤ pos (2 ^ 64) }
{
    match ty {
        Ty::I8 | Ty::I16 | Ty::I32 | Ty::I64 => i128::from(word.0.cast_signed()),
        Ty::U8 | Ty::U16 | Ty::U32 | Ty::U64 => i128::from(word.0),
    }
}

/// A number of bytes, in elements of a pointer.
pub fn in_elements(ty: Option<CType>, bytes: i128) -> i128
    requires low { neg_ℤ (pos (2 ^ 31)) ≤ℤ bytes }
    requires high { bytes ≤ℤ pos (2 ^ 31) }
    ensures elements { result ≡ in_elements ty bytes }
    ensures low { neg_ℤ (pos (2 ^ 31)) ≤ℤ result }
    ensures high { result ≤ℤ pos (2 ^ 31) }
{
    match ty {
        Some(CType::Ptr { to, .. }) => bytes / i128::from(size(to)),
        Some(CType::Int(_)) => bytes,
        Some(CType::Void) => bytes,
        None => bytes,
    }
}

/// A word moved by a number: a pointer's offset modulo 2^32, an integer within its type.
pub fn moved_by(ty: Option<CType>, word: Word, by: i128) -> Word
    requires low { neg_ℤ (pos (2 ^ 80)) ≤ℤ by }
    requires high { by ≤ℤ pos (2 ^ 80) }
    ensures { result.0 ≡ moved_by ty word.0 by }
{
    match ty {
        Some(CType::Ptr { .. }) => moved_pointer(word, by),
        Some(CType::Int(ty)) => moved_number(ty, word, by),
        Some(CType::Void) => word,
        None => word,
    }
}

// An integer moved by a number.
fn moved_number(ty: Ty, word: Word, by: i128) -> Word
    requires low { neg_ℤ (pos (2 ^ 80)) ≤ℤ by }
    requires high { by ≤ℤ pos (2 ^ 80) }
    ensures { result.0 ≡ word_of (wrap_number ty (number_of ty word.0 +ℤ by)) }
{
    wrapped(ty, number_in(ty, word) + by)
}

/// The pattern of a number that is wrapped to a type.
pub fn wrapped(ty: Ty, number: i128) -> Word
    ensures { result.0 ≡ word_of (wrap_number ty number) }
{
    wrap(ty, number)
}

// A pointer moved by a number of elements, its offset modulo 2^32.
fn moved_pointer(pointer: Word, by: i128) -> Word
    requires low { neg_ℤ (pos (2 ^ 80)) ≤ℤ by }
    requires high { by ≤ℤ pos (2 ^ 80) }
    ensures { result.0 ≡ at_offset pointer.0 (offset_of pointer.0 +ℤ by) }
{
    let offset = ((pointer.0 % (1 << 32)) as u32).cast_signed();
    let moved = i128::from(offset) + by;
    Word(pointer.0 / (1 << 32) * (1 << 32) + moved.rem_euclid(1 << 32) as u64)
}

/// How far a lane is from another.
pub fn distance(first: usize, lane: usize) -> i128
    requires first { first < 256 }
    requires lane { lane < 256 }
    ensures distance { result ≡ pos lane -ℤ pos first }
    ensures low { neg_ℤ (pos (2 ^ 8)) ≤ℤ result }
    ensures high { result ≤ℤ pos (2 ^ 8) }
{
    lane as i128 - first as i128
}

/// A step, so many times.
pub fn scaled(count: i128, step: i128) -> i128
    requires count_low { neg_ℤ (pos (2 ^ 8)) ≤ℤ count }
    requires count_high { count ≤ℤ pos (2 ^ 8) }
    requires step_low { neg_ℤ (pos (2 ^ 64)) ≤ℤ step }
    requires step_high { step ≤ℤ pos (2 ^ 64) }
    ensures product { result ≡ count *ℤ step }
    ensures low { neg_ℤ (pos (2 ^ 80)) ≤ℤ result }
    ensures high { result ≤ℤ pos (2 ^ 80) }
{
    count * step
}
