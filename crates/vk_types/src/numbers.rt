// Words and numbers, and the conversions between types.

ghost use Rattle.std.specs.Prelude.{◌≡◌, ◌*◌};
ghost use Rattle.vk_types.specs.Conversions.{common_type, promoted};
ghost use Rattle.vk_types.specs.Numbers.{IsCanonical, IsInRange, number_of, width_of, wrap_number};

use crate::types::{Ty, Word};

/// The size of a type in bytes: 1, 2, 4 or 8.
pub fn size(t: Ty) -> u32
    ensures { result * 8 ≡ width_of t }
{
    match t {
        Ty::I8 | Ty::U8 => 1,
        Ty::I16 | Ty::U16 => 2,
        Ty::I32 | Ty::U32 => 4,
        Ty::I64 | Ty::U64 => 8,
    }
}

/// The word of the one number of `t`'s range that differs from `n` by a multiple of 2 to the width
/// (C17 6.3.1.3, with signed types as unsigned ones).
pub fn wrap(t: Ty, n: i128) -> Word
    ensures number { number_of t result.0 ≡ wrap_number t n }
    ensures canonical { IsCanonical t result.0 }
{
    match t {
        Ty::I8 => signed_word(i64::from((n.rem_euclid(1 << 8) as u8).cast_signed())),
        Ty::I16 => signed_word(i64::from((n.rem_euclid(1 << 16) as u16).cast_signed())),
        Ty::I32 => signed_word(i64::from((n.rem_euclid(1 << 32) as u32).cast_signed())),
        Ty::I64 => signed_word((n.rem_euclid(1 << 64) as u64).cast_signed()),
        Ty::U8 => Word(n.rem_euclid(1 << 8) as u64),
        Ty::U16 => Word(n.rem_euclid(1 << 16) as u64),
        Ty::U32 => Word(n.rem_euclid(1 << 32) as u64),
        Ty::U64 => Word(n.rem_euclid(1 << 64) as u64),
    }
}

// The sign extended pattern.
fn signed_word(n: i64) -> Word
    ensures { number_of Ty.I64 result.0 ≡ n }
{
    Word(n.cast_unsigned())
}

/// The number that the word `w`, canonical for `t`, stands for.
pub fn number(t: Ty, w: Word) -> i128
    requires { IsCanonical t w.0 }
    ensures number { result ≡ number_of t w.0 }
    ensures in_range { IsInRange t result }
{
    match t {
        Ty::I8 | Ty::I16 | Ty::I32 | Ty::I64 => i128::from(w.0.cast_signed()),
        Ty::U8 | Ty::U16 | Ty::U32 | Ty::U64 => i128::from(w.0),
    }
}

/// The type that an operand of type `t` is promoted to (C17 6.3.1.1).
pub fn promote(t: Ty) -> Ty
    ensures { result ≡ promoted t }
{
    match t {
        Ty::I8 | Ty::I16 | Ty::I32 | Ty::U8 | Ty::U16 => Ty::I32,
        Ty::U32 => Ty::U32,
        Ty::I64 => Ty::I64,
        Ty::U64 => Ty::U64,
    }
}

/// The type in which an operator works on operands of the types `a` and `b` (C17 6.3.1.8).
pub fn common(a: Ty, b: Ty) -> Ty
    ensures { result ≡ common_type a b }
{
    match (promote(a), promote(b)) {
        (Ty::U64, _) | (_, Ty::U64) => Ty::U64,
        (Ty::I64, _) | (_, Ty::I64) => Ty::I64,
        (Ty::U32, _) | (_, Ty::U32) => Ty::U32,
        _ => Ty::I32,
    }
}

/// The word of type `to` for the number of `w`, a word canonical for `from` (C17 6.3.1.3, with signed types as unsigned ones).
pub fn convert(from: Ty, to: Ty, w: Word) -> Word
    requires { IsCanonical from w.0 }
    ensures number { number_of to result.0 ≡ wrap_number to (number_of from w.0) }
    ensures canonical { IsCanonical to result.0 }
{
    wrap(to, number(from, w))
}
