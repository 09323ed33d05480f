// The kernels that write words.

ghost use Rattle.std.specs.Prelude.{◌≡◌, ◌+◌, ◌*◌, ◌<◌, ◌≤◌, ◌&&◌, ℕ, false, length, true};
ghost use Rattle.vk_types.specs.Numbers.{IsCanonical, number_of};
ghost use Rattle.vk_types.specs.Operators.{divides_by_0, result_type};
ghost use Rattle.vk_lanes.specs.Kernels.{AreOperands, Writes, convert_word, op1_word, op2_word};
ghost use Rattle.vk_lanes.specs.Masks.{is_on, lane_count};
ghost use Rattle.vk_lanes.specs.Words.{AreTyped, word_in};
ghost use Rattle.vk_lanes.specs.Inner.Blocks.{Marks, WritesOn};
ghost use Rattle.vk_lanes.specs.Inner.Patterns.{pattern};

use crate::blocks::{load, step, store};
use crate::mask::LaneMask;
use crate::patterns::{Lanewise, computed};
use vk_types::{Op1, Op2, Ty, Word, op2};

// Eight lanes from 8 k on.
fn block(op: Lanewise, t: Ty, mask: &LaneMask, a: &[Word], b: &[Word], d: &mut [Word], k: usize)
    requires room { 8 * k + 8 ≤ lane_count mask.now }
    requires left { length a.now ≡ lane_count mask.now }
    requires right { length b.now ≡ lane_count mask.now }
    requires written { length d.old ≡ lane_count mask.now }
    ensures { WritesOn (8 * k) (8 * k + 8) (is_on mask.now) (λ i. pattern op t (word_in a.now i) (word_in b.now i)) d.old d.new }
{
    let at = 8 * k;
    let words = step(op, t, mask, k, load(a, at), load(b, at), load(d, at));
    store(words, d, at);
}

// One lane.
fn lane(op: Lanewise, t: Ty, mask: &LaneMask, a: &[Word], b: &[Word], d: &mut [Word], i: usize)
    requires room { i < lane_count mask.now }
    requires left { length a.now ≡ lane_count mask.now }
    requires right { length b.now ≡ lane_count mask.now }
    requires written { length d.old ≡ lane_count mask.now }
    ensures { WritesOn i (i + 1) (is_on mask.now) (λ i. pattern op t (word_in a.now i) (word_in b.now i)) d.old d.new }
{
    if mask.get(i) {
        d[i] = Word(computed(op, t, a[i].0, b[i].0));
    }
}

// All lanes, in blocks of eight, and one by one where fewer are left.
fn compute(op: Lanewise, t: Ty, mask: &LaneMask, a: &[Word], b: &[Word], d: &mut [Word])
    requires left { length a.now ≡ lane_count mask.now }
    requires right { length b.now ≡ lane_count mask.now }
    requires written { length d.old ≡ lane_count mask.now }
    ensures { Writes (is_on mask.now) (λ i. pattern op t (word_in a.now i) (word_in b.now i)) d.old d.new }
{
    let blocks = mask.len() / 8;
    for k in 0..blocks {
        block(op, t, mask, a, b, d, k);
    }
    for i in 8 * blocks..mask.len() {
        lane(op, t, mask, a, b, d, i);
    }
}

/// `a op b` in the lanes that are on in `mask`, into `d`; the other words of `d` stay (C17 6.5.5 to 6.5.12 lane by lane).
///
/// All rows have a word for each lane of the mask. In lanes that are on the words of `a` are canonical for `t`, and those of `b`
/// for `bt`, which is `t` but for shifts. `zero` gets the lanes that are on and whose divisor is 0: there `d` stays too. A lane
/// that is off divides nothing, whatever its words are.
pub fn lanes2(
    op: Op2,
    t: Ty,
    mask: &LaneMask,
    a: &[Word],
    b: &[Word],
    bt: Ty,
    d: &mut [Word],
    zero: &mut LaneMask,
)
    requires left { length a.now ≡ lane_count mask.now }
    requires right { length b.now ≡ lane_count mask.now }
    requires written { length d.old ≡ lane_count mask.now }
    requires left_words { AreTyped t (is_on mask.now) (word_in a.now) }
    requires right_words { AreTyped bt (is_on mask.now) (word_in b.now) }
    requires types { AreOperands op t bt }

    ensures words { Writes (is_on mask.now) (λ i. op2_word op t bt (word_in a.now i) (word_in b.now i) (word_in d.old i)) d.old d.new }
    ensures typed { (i : ℕ) → is_on mask.now i ≡ true → is_on zero.new i ≡ false → IsCanonical (result_type op t) (word_in d.new i) }
    ensures zero_len { lane_count zero.new ≡ lane_count mask.now }
    ensures zero { (i : ℕ) → is_on zero.new i ≡ (is_on mask.now i && divides_by_0 op (number_of bt (word_in b.now i))) }
{
    *zero = LaneMask::new(mask.len());
    match Lanewise::binary(op) {
        Some(work) => compute(work, t, mask, a, b, d),
        None => divide(op, t, mask, a, b, bt, d, zero),
    }
}

/// `op a` in the lanes that are on in `mask`, into `d`; the other words of `d` stay (C17 6.5.3.3 lane by lane).
///
/// The rows have a word for each lane of the mask, and in lanes that are on those of `a` are canonical for `t`.
pub fn lanes1(op: Op1, t: Ty, mask: &LaneMask, a: &[Word], d: &mut [Word])
    requires operand { length a.now ≡ lane_count mask.now }
    requires written { length d.old ≡ lane_count mask.now }
    requires words { AreTyped t (is_on mask.now) (word_in a.now) }
    ensures words { Writes (is_on mask.now) (λ i. op1_word op t (word_in a.now i)) d.old d.new }
    ensures typed { AreTyped t (is_on mask.now) (word_in d.new) }
{
    compute(Lanewise::unary(op), t, mask, a, a, d);
}

/// The words of `a`, of type `from`, converted to `to` in the lanes that are on in `mask`, into `d`; the other words of `d` stay
/// (C17 6.3.1.3 lane by lane).
///
/// The rows have a word for each lane of the mask, and in lanes that are on those of `a` are canonical for `from`.
pub fn lanes_convert(from: Ty, to: Ty, mask: &LaneMask, a: &[Word], d: &mut [Word])
    requires operand { length a.now ≡ lane_count mask.now }
    requires written { length d.old ≡ lane_count mask.now }
    requires words { AreTyped from (is_on mask.now) (word_in a.now) }
    ensures words { Writes (is_on mask.now) (λ i. convert_word from to (word_in a.now i)) d.old d.new }
    ensures typed { AreTyped to (is_on mask.now) (word_in d.new) }
{
    compute(Lanewise::Extend, to, mask, a, a, d);
}

/// The words of `a` in the lanes that are on in `mask`, into `d`; the other words of `d` stay.
///
/// The rows have a word for each lane of the mask.
pub fn lanes_copy(mask: &LaneMask, a: &[Word], d: &mut [Word])
    requires operand { length a.now ≡ lane_count mask.now }
    requires written { length d.old ≡ lane_count mask.now }
    ensures { Writes (is_on mask.now) (word_in a.now) d.old d.new }
{
    compute(Lanewise::Copy, Ty::I64, mask, a, a, d);
}

// Quotients or remainders, lane by lane, and the lanes whose divisor is 0.
fn divide(
    op: Op2,
    t: Ty,
    mask: &LaneMask,
    a: &[Word],
    b: &[Word],
    bt: Ty,
    d: &mut [Word],
    zero: &mut LaneMask,
)
    requires left { length a.now ≡ lane_count mask.now }
    requires right { length b.now ≡ lane_count mask.now }
    requires written { length d.old ≡ lane_count mask.now }
    requires zero_len { lane_count zero.old ≡ lane_count mask.now }
    requires zero_off { (i : ℕ) → is_on zero.old i ≡ false }
    requires left_words { AreTyped t (is_on mask.now) (word_in a.now) }
    requires right_words { AreTyped bt (is_on mask.now) (word_in b.now) }

    ensures words { Writes (is_on mask.now) (λ i. op2_word op t bt (word_in a.now i) (word_in b.now i) (word_in d.old i)) d.old d.new }
    ensures zero_len { lane_count zero.new ≡ lane_count mask.now }
    ensures zero { (i : ℕ) → is_on zero.new i ≡ (is_on mask.now i && divides_by_0 op (number_of bt (word_in b.now i))) }
{
    for i in 0..mask.len() {
        divide_lane(op, t, mask, a, b, bt, d, zero, i);
    }
}

// One lane of these.
fn divide_lane(
    op: Op2,
    t: Ty,
    mask: &LaneMask,
    a: &[Word],
    b: &[Word],
    bt: Ty,
    d: &mut [Word],
    zero: &mut LaneMask,
    lane: usize,
)
    requires room { lane < lane_count mask.now }
    requires left { length a.now ≡ lane_count mask.now }
    requires right { length b.now ≡ lane_count mask.now }
    requires written { length d.old ≡ lane_count mask.now }
    requires zero_len { lane_count zero.old ≡ lane_count mask.now }
    requires left_words { AreTyped t (is_on mask.now) (word_in a.now) }
    requires right_words { AreTyped bt (is_on mask.now) (word_in b.now) }

    ensures words { WritesOn lane (lane + 1) (is_on mask.now) (λ j. op2_word op t bt (word_in a.now j) (word_in b.now j) (word_in d.old j)) d.old d.new }
    ensures zero_len { lane_count zero.new ≡ lane_count zero.old }
    ensures zero { Marks lane (is_on mask.now lane && divides_by_0 op (number_of bt (word_in b.now lane))) zero.old zero.new }
{
    if mask.get(lane) {
        d[lane] = quotient(op, t, a[lane], b[lane], bt, d[lane], zero, lane);
    }
}

/// The quotient or remainder of one lane, or the old word where the divisor is 0, which is noted in `zero`.
pub(crate) fn quotient(
    op: Op2,
    t: Ty,
    a: Word,
    b: Word,
    bt: Ty,
    old: Word,
    zero: &mut LaneMask,
    lane: usize,
) -> Word
    requires room { lane < lane_count zero.old }
    requires left { IsCanonical t a.0 }
    requires right { IsCanonical bt b.0 }

    ensures word { result.0 ≡ op2_word op t bt a.0 b.0 old.0 }
    ensures zero_len { lane_count zero.new ≡ lane_count zero.old }
    ensures zero { Marks lane (divides_by_0 op (number_of bt b.0)) zero.old zero.new }
{
    match op2(op, t, a, b, bt) {
        Ok(word) => word,
        Err(_) => {
            zero.set(lane, true);
            old
        }
    }
}
