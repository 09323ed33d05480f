// The operators on words.

ghost use Rattle.std.specs.Prelude.{◌≡◌, ◌<◌, IfErr, IfOk, IsFalse, IsTrue, FitsSigned, int_div, int_rem, neg_ℤ, pos};
ghost use Rattle.std.specs.Int.{w128};
ghost use Rattle.vk_types.specs.declared.types.Stop.TheVariants.{Divide};
ghost use Rattle.vk_types.specs.Numbers.{IsCanonical, number_of, width_of, wrap_number};
ghost use Rattle.vk_types.specs.Operators.{HasNumber, divided, divides_by_0, op1_number, op2_number, result_type, shift_count, wrapped};

use crate::numbers::{number, size, wrap};
use crate::types::{Op1, Op2, Stop, Ty, Word};

/// The value of `op a` in the type `t`, for which `a` is canonical (C17 6.5.3.3); in C, `t` is promoted.
pub fn op1(op: Op1, t: Ty, a: Word) -> Word
    requires { IsCanonical t a.0 }
    ensures number { number_of t result.0 ≡ op1_number op t (number_of t a.0) }
    ensures canonical { IsCanonical t result.0 }
{
    match op {
        Op1::Neg => wrap(t, -number(t, a)),
        Op1::Not => wrap_pattern(t, !a.0),
    }
}

/// The value of `a op b`, or the stop `Divide` where a division or remainder has the divisor 0 (C17 6.5.5 to 6.5.12).
///
/// `a` is canonical for `t`, and `b` for `bt`. In C, `t` is promoted, and `bt` is `t` but for shifts. The value is of type `t`,
/// that of a comparison 0 or 1 of type `I32`.
pub fn op2(op: Op2, t: Ty, a: Word, b: Word, bt: Ty) -> Result<Word, Stop>
    requires left { IsCanonical t a.0 }
    requires right { IsCanonical bt b.0 }
    ensures number { HasNumber (result_type op t) result (op2_number op t (number_of t a.0) (number_of bt b.0)) }
    ensures canonical { IfOk result (λ w. IsCanonical (result_type op t) w.0) }
    ensures value { IfOk result (λ w. IsFalse (divides_by_0 op (number_of bt b.0))) }
    ensures stop { IfErr result (λ stop. (stop ≡ Divide) × IsTrue (divides_by_0 op (number_of bt b.0))) }
{
    let (x, y) = (number(t, a), number(bt, b));
    match op {
        Op2::Add => Ok(wrap(t, x + y)),
        Op2::Sub => Ok(wrap(t, x - y)),
        Op2::Mul => Ok(wrap_pattern(t, a.0.wrapping_mul(b.0))),
        Op2::Div => quotient(t, x, y),
        Op2::Rem => remainder(t, x, y),
        Op2::And => Ok(wrap_pattern(t, a.0 & b.0)),
        Op2::Or => Ok(wrap_pattern(t, a.0 | b.0)),
        Op2::Xor => Ok(wrap_pattern(t, a.0 ^ b.0)),
        Op2::Shl => Ok(wrap_pattern(t, a.0 << shift(t, y))),
        Op2::Shr => Ok(wrap(t, x >> shift(t, y))),
        Op2::Eq => Ok(wrap(Ty::I32, i128::from(x == y))),
        Op2::Ne => Ok(wrap(Ty::I32, i128::from(x != y))),
        Op2::Lt => Ok(wrap(Ty::I32, i128::from(x < y))),
        Op2::Le => Ok(wrap(Ty::I32, i128::from(x <= y))),
    }
}

// The word of the type's number that a pattern ends in.
fn wrap_pattern(t: Ty, pattern: u64) -> Word
    ensures number { number_of t result.0 ≡ wrap_number t (pos pattern) }
    ensures canonical { IsCanonical t result.0 }
{
    wrap(t, i128::from(pattern))
}

// How far a shift of a number of type `t` by `y` goes.
fn shift(t: Ty, y: i128) -> u32
    ensures count { result ≡ shift_count t y }
    ensures less { result < width_of t }
{
    y.rem_euclid(i128::from(size(t) * 8)) as u32
}

// The word of the truncated quotient.
fn quotient(t: Ty, x: i128, y: i128) -> Result<Word, Stop>
    requires { FitsSigned w128 (neg_ℤ x) }
    ensures number { HasNumber t result (wrapped t (divided y (int_div x y))) }
    ensures canonical { IfOk result (λ w. IsCanonical t w.0) }
{
    if y == 0 {
        return Err(Stop::Divide);
    }
    Ok(wrap(t, x / y))
}

// The word of the remainder, whose sign is that of the dividend.
fn remainder(t: Ty, x: i128, y: i128) -> Result<Word, Stop>
    requires { FitsSigned w128 (neg_ℤ x) }
    ensures number { HasNumber t result (wrapped t (divided y (int_rem x y))) }
    ensures canonical { IfOk result (λ w. IsCanonical t w.0) }
{
    if y == 0 {
        return Err(Stop::Divide);
    }
    Ok(wrap(t, x % y))
}
