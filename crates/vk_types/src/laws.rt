// What the definitions of numbers, words, types and operators mean, as laws.

ghost use Rattle.std.specs.Prelude.{◌≡◌, ◌<◌, ◌-◌, ◌+◌, ◌%◌, ◌≤ℤ◌, ◌+ℤ◌, ◌*ℤ◌, max, min, true, ℕ, ℤ, Ok, Err, IsTrue, int_div, int_rem, neg_ℤ, unsigned_abs, pos};
ghost use Rattle.vk_types.specs.declared.types.Op1.TheVariants.{Not};
ghost use Rattle.vk_types.specs.declared.types.Op2.TheVariants.{And, Div, Or, Rem, Xor};
ghost use Rattle.vk_types.specs.declared.types.Stop.TheVariants.{Divide};
ghost use Rattle.vk_types.specs.Conversions.{common_type, greatest_of, holds_all, is_signed, least_of, promoted};
ghost use Rattle.vk_types.specs.Numbers.{IsCanonical, IsInRange, IsWrapOf, number_of, width_of, word_of, wrap_number};
ghost use Rattle.vk_types.specs.Operators.{bit_of, divides_by_0, op1_number, op2_number, result_type};

use crate::types::{Op1, Op2, Stop, Ty};

/// Wrapping gives the one number of a type's range that differs by a multiple of 2 to the width (C17 6.3.1.3).
pub fn wrapping()
    ensures differs { (t : Ty) (z : ℤ) → IsWrapOf t z (wrap_number t z) }
    ensures only { (t : Ty) (z r : ℤ) → IsWrapOf t z r → r ≡ wrap_number t z }
{}

/// A conversion keeps the number where the type has it (C17 6.3.1.3).
pub fn conversion()
    ensures keeps { (t : Ty) (z : ℤ) → IsInRange t z → wrap_number t z ≡ z }
{}

/// The canonical words of a type are the patterns of the numbers of its range, one for each (C17 6.2.6.2).
pub fn canonical_words()
    ensures pattern { (t : Ty) (z : ℤ) → IsInRange t z → IsCanonical t (word_of z) }
    ensures number { (t : Ty) (z : ℤ) → IsInRange t z → number_of t (word_of z) ≡ z }
    ensures determined { (t : Ty) (w : ℕ) → IsCanonical t w → word_of (number_of t w) ≡ w }
{}

/// A type's numbers are those from its least to its greatest, and `holds_all` compares these ranges.
pub fn ranges()
    ensures least { (t : Ty) (z : ℤ) → IsInRange t z → least_of t ≤ℤ z }
    ensures greatest { (t : Ty) (z : ℤ) → IsInRange t z → z ≤ℤ greatest_of t }
    ensures between { (t : Ty) (z : ℤ) → least_of t ≤ℤ z → z ≤ℤ greatest_of t → IsInRange t z }
    ensures holds { (t s : Ty) → holds_all t s ≡ true → (z : ℤ) → IsInRange s z → IsInRange t z }
    ensures all { (t s : Ty) → ((z : ℤ) → IsInRange s z → IsInRange t z) → holds_all t s ≡ true }
{}

/// A promoted type is promoted to itself; so is a common type, which is one for both orders of the operands (C17 6.3.1.8).
pub fn common_types()
    ensures promotion { (t : Ty) → promoted (promoted t) ≡ promoted t }
    ensures common { (a b : Ty) → promoted (common_type a b) ≡ common_type a b }
    ensures order { (a b : Ty) → common_type a b ≡ common_type b a }
{}

/// The value of an operator is a number of its type, and `op2` stops exactly at a division or remainder by 0.
pub fn values()
    ensures unary { (op : Op1) (t : Ty) (x : ℤ) → IsInRange t (op1_number op t x) }
    ensures binary { (op : Op2) (t : Ty) (x y z : ℤ) → op2_number op t x y ≡ Ok z → IsInRange (result_type op t) z }
    ensures divide { (op : Op2) (t : Ty) (x y : ℤ) → IsTrue (divides_by_0 op y) → op2_number op t x y ≡ Err Divide }
    ensures stop { (op : Op2) (t : Ty) (x y : ℤ) (stop : Stop) → op2_number op t x y ≡ Err stop → IsTrue (divides_by_0 op y) }
{}

/// A quotient is truncated: its product with the divisor and the remainder, which is less than the divisor, make the dividend
/// (C17 6.5.5). The least number of a signed type divided by -1 wraps to itself, with the remainder 0.
pub fn division()
    ensures sum { (x y : ℤ) → int_div x y *ℤ y +ℤ int_rem x y ≡ x }
    ensures rest { (x y : ℤ) → 0 < unsigned_abs y → unsigned_abs (int_rem x y) < unsigned_abs y }
    ensures least { (t : Ty) → is_signed t ≡ true → op2_number Div t (least_of t) (neg_ℤ (pos 1)) ≡ Ok (least_of t) }
    ensures least_rest { (t : Ty) → is_signed t ≡ true → op2_number Rem t (least_of t) (neg_ℤ (pos 1)) ≡ Ok (pos 0) }
{}

/// Each bit of a result of `~`, `&`, `|` and `^` is that operator's of the operands' bits (C17 6.5.3.3, 6.5.10 to 6.5.12).
pub fn bits()
    ensures not { (t : Ty) (x : ℤ) (k : ℕ) → k < width_of t → bit_of (op1_number Not t x) k ≡ 1 - bit_of x k }
    ensures and { (t : Ty) (x y z : ℤ) → op2_number And t x y ≡ Ok z → (k : ℕ) → k < width_of t → bit_of z k ≡ min (bit_of x k) (bit_of y k) }
    ensures or { (t : Ty) (x y z : ℤ) → op2_number Or t x y ≡ Ok z → (k : ℕ) → k < width_of t → bit_of z k ≡ max (bit_of x k) (bit_of y k) }
    ensures xor { (t : Ty) (x y z : ℤ) → op2_number Xor t x y ≡ Ok z → (k : ℕ) → k < width_of t → bit_of z k ≡ (bit_of x k + bit_of y k) % 2 }
{}
