// The kernels on rows that lie in one list of words, as the registers of a frame do. A row is told by the place of its first word,
// and the row that is written may be that of an operand.

ghost use Rattle.std.specs.Prelude.{◌≡◌, ◌+◌, ◌-◌, ◌*◌, ◌<◌, ◌≤◌, ◌&&◌, ℕ, false, length, true};
ghost use Rattle.vk_types.specs.Numbers.{IsCanonical, number_of};
ghost use Rattle.vk_types.specs.Operators.{divides_by_0, result_type};
ghost use Rattle.vk_lanes.specs.Kernels.{AreOperands, AreRows, WritesRow, convert_word, op1_word, op2_word};
ghost use Rattle.vk_lanes.specs.Masks.{is_on, lane_count};
ghost use Rattle.vk_lanes.specs.Words.{AreTyped, word_in};
ghost use Rattle.vk_lanes.specs.Inner.Blocks.{Marks, WritesOn};
ghost use Rattle.vk_lanes.specs.Inner.Patterns.{pattern};

use crate::blocks::{load, step, store};
use crate::kernels::quotient;
use crate::mask::LaneMask;
use crate::patterns::{Lanewise, computed};
use vk_types::{Op1, Op2, Ty, Word};

/// As `lanes2`, of the rows from the places `a` and `b` on into the row from `d` on.
///
/// Each of the three has a word for each lane of the mask; the row of `d` is that of an operand, or has no word in common with it.
pub fn rows2(
    op: Op2,
    t: Ty,
    mask: &LaneMask,
    rows: &mut [Word],
    a: usize,
    b: usize,
    bt: Ty,
    d: usize,
    zero: &mut LaneMask,
)
    requires left { a + lane_count mask.now ≤ length rows.old }
    requires right { b + lane_count mask.now ≤ length rows.old }
    requires written { d + lane_count mask.now ≤ length rows.old }
    requires left_row { AreRows (lane_count mask.now) a d }
    requires right_row { AreRows (lane_count mask.now) b d }
    requires left_words { AreTyped t (is_on mask.now) (λ i. word_in rows.old (a + i)) }
    requires right_words { AreTyped bt (is_on mask.now) (λ i. word_in rows.old (b + i)) }
    requires types { AreOperands op t bt }

    ensures words { WritesRow (lane_count mask.now) d (is_on mask.now)
        (λ i. op2_word op t bt (word_in rows.old (a + i)) (word_in rows.old (b + i)) (word_in rows.old (d + i))) rows.old rows.new }
    ensures typed { (i : ℕ) → is_on mask.now i ≡ true → is_on zero.new i ≡ false → IsCanonical (result_type op t) (word_in rows.new (d + i)) }
    ensures zero_len { lane_count zero.new ≡ lane_count mask.now }
    ensures zero { (i : ℕ) → is_on zero.new i ≡ (is_on mask.now i && divides_by_0 op (number_of bt (word_in rows.old (b + i)))) }
{
    *zero = LaneMask::new(mask.len());
    match Lanewise::binary(op) {
        Some(work) => compute(work, t, mask, rows, a, b, d),
        None => divide(op, t, mask, rows, a, b, bt, d, zero),
    }
}

/// As `lanes1`, of the row from the place `a` on into the row from `d` on, which is the same row or has no word in common with it.
pub fn rows1(op: Op1, t: Ty, mask: &LaneMask, rows: &mut [Word], a: usize, d: usize)
    requires operand { a + lane_count mask.now ≤ length rows.old }
    requires written { d + lane_count mask.now ≤ length rows.old }
    requires row { AreRows (lane_count mask.now) a d }
    requires words { AreTyped t (is_on mask.now) (λ i. word_in rows.old (a + i)) }
    ensures words { WritesRow (lane_count mask.now) d (is_on mask.now) (λ i. op1_word op t (word_in rows.old (a + i))) rows.old rows.new }
    ensures typed { AreTyped t (is_on mask.now) (λ i. word_in rows.new (d + i)) }
{
    compute(Lanewise::unary(op), t, mask, rows, a, a, d);
}

/// As `lanes_convert`, of the row from the place `a` on into the row from `d` on, which is the same row or has no word in common
/// with it.
pub fn rows_convert(from: Ty, to: Ty, mask: &LaneMask, rows: &mut [Word], a: usize, d: usize)
    requires operand { a + lane_count mask.now ≤ length rows.old }
    requires written { d + lane_count mask.now ≤ length rows.old }
    requires row { AreRows (lane_count mask.now) a d }
    requires words { AreTyped from (is_on mask.now) (λ i. word_in rows.old (a + i)) }
    ensures words { WritesRow (lane_count mask.now) d (is_on mask.now) (λ i. convert_word from to (word_in rows.old (a + i))) rows.old rows.new }
    ensures typed { AreTyped to (is_on mask.now) (λ i. word_in rows.new (d + i)) }
{
    compute(Lanewise::Extend, to, mask, rows, a, a, d);
}

/// As `lanes_copy`, of the row from the place `a` on into the row from `d` on, which is the same row or has no word in common with
/// it.
pub fn rows_copy(mask: &LaneMask, rows: &mut [Word], a: usize, d: usize)
    requires operand { a + lane_count mask.now ≤ length rows.old }
    requires written { d + lane_count mask.now ≤ length rows.old }
    requires row { AreRows (lane_count mask.now) a d }
    ensures { WritesRow (lane_count mask.now) d (is_on mask.now) (λ i. word_in rows.old (a + i)) rows.old rows.new }
{
    compute(Lanewise::Copy, Ty::I64, mask, rows, a, a, d);
}

// Eight lanes from 8 k on. Places of the written row stand for lanes: place j for lane j - d.
fn block(
    op: Lanewise,
    t: Ty,
    mask: &LaneMask,
    rows: &mut [Word],
    a: usize,
    b: usize,
    d: usize,
    k: usize,
)
    requires room { 8 * k + 8 ≤ lane_count mask.now }
    requires left { a + lane_count mask.now ≤ length rows.old }
    requires right { b + lane_count mask.now ≤ length rows.old }
    requires written { d + lane_count mask.now ≤ length rows.old }
    ensures { WritesOn (d + 8 * k) (d + (8 * k + 8)) (λ j. is_on mask.now (j - d))
        (λ j. pattern op t (word_in rows.old (a + (j - d))) (word_in rows.old (b + (j - d)))) rows.old rows.new }
{
    let at = 8 * k;
    let words = step(
        op,
        t,
        mask,
        k,
        load(rows, a + at),
        load(rows, b + at),
        load(rows, d + at),
    );
    store(words, rows, d + at);
}

// One lane.
fn lane(
    op: Lanewise,
    t: Ty,
    mask: &LaneMask,
    rows: &mut [Word],
    a: usize,
    b: usize,
    d: usize,
    i: usize,
)
    requires room { i < lane_count mask.now }
    requires left { a + lane_count mask.now ≤ length rows.old }
    requires right { b + lane_count mask.now ≤ length rows.old }
    requires written { d + lane_count mask.now ≤ length rows.old }
    ensures { WritesOn (d + i) (d + (i + 1)) (λ j. is_on mask.now (j - d))
        (λ j. pattern op t (word_in rows.old (a + (j - d))) (word_in rows.old (b + (j - d)))) rows.old rows.new }
{
    if mask.get(i) {
        rows[d + i] = Word(computed(op, t, rows[a + i].0, rows[b + i].0));
    }
}

// All lanes, in blocks of eight, and one by one where fewer are left.
fn compute(op: Lanewise, t: Ty, mask: &LaneMask, rows: &mut [Word], a: usize, b: usize, d: usize)
    requires left { a + lane_count mask.now ≤ length rows.old }
    requires right { b + lane_count mask.now ≤ length rows.old }
    requires written { d + lane_count mask.now ≤ length rows.old }
    requires left_row { AreRows (lane_count mask.now) a d }
    requires right_row { AreRows (lane_count mask.now) b d }
    ensures { WritesRow (lane_count mask.now) d (is_on mask.now)
        (λ i. pattern op t (word_in rows.old (a + i)) (word_in rows.old (b + i))) rows.old rows.new }
{
    let blocks = mask.len() / 8;
    for k in 0..blocks {
        block(op, t, mask, rows, a, b, d, k);
    }
    for i in 8 * blocks..mask.len() {
        lane(op, t, mask, rows, a, b, d, i);
    }
}

// Quotients or remainders, lane by lane, and the lanes whose divisor is 0.
fn divide(
    op: Op2,
    t: Ty,
    mask: &LaneMask,
    rows: &mut [Word],
    a: usize,
    b: usize,
    bt: Ty,
    d: usize,
    zero: &mut LaneMask,
)
    requires left { a + lane_count mask.now ≤ length rows.old }
    requires right { b + lane_count mask.now ≤ length rows.old }
    requires written { d + lane_count mask.now ≤ length rows.old }
    requires left_row { AreRows (lane_count mask.now) a d }
    requires right_row { AreRows (lane_count mask.now) b d }
    requires left_words { AreTyped t (is_on mask.now) (λ i. word_in rows.old (a + i)) }
    requires right_words { AreTyped bt (is_on mask.now) (λ i. word_in rows.old (b + i)) }
    requires zero_len { lane_count zero.old ≡ lane_count mask.now }
    requires zero_off { (i : ℕ) → is_on zero.old i ≡ false }

    ensures words { WritesRow (lane_count mask.now) d (is_on mask.now)
        (λ i. op2_word op t bt (word_in rows.old (a + i)) (word_in rows.old (b + i)) (word_in rows.old (d + i))) rows.old rows.new }
    ensures zero_len { lane_count zero.new ≡ lane_count mask.now }
    ensures zero { (i : ℕ) → is_on zero.new i ≡ (is_on mask.now i && divides_by_0 op (number_of bt (word_in rows.old (b + i)))) }
{
    for i in 0..mask.len() {
        divide_lane(op, t, mask, rows, a, b, bt, d, zero, i);
    }
}

// One lane of these.
fn divide_lane(
    op: Op2,
    t: Ty,
    mask: &LaneMask,
    rows: &mut [Word],
    a: usize,
    b: usize,
    bt: Ty,
    d: usize,
    zero: &mut LaneMask,
    i: usize,
)
    requires room { i < lane_count mask.now }
    requires left { a + lane_count mask.now ≤ length rows.old }
    requires right { b + lane_count mask.now ≤ length rows.old }
    requires written { d + lane_count mask.now ≤ length rows.old }
    requires zero_len { lane_count zero.old ≡ lane_count mask.now }
    requires left_word { is_on mask.now i ≡ true → IsCanonical t (word_in rows.old (a + i)) }
    requires right_word { is_on mask.now i ≡ true → IsCanonical bt (word_in rows.old (b + i)) }

    ensures words { WritesOn (d + i) (d + (i + 1)) (λ j. is_on mask.now (j - d))
        (λ j. op2_word op t bt (word_in rows.old (a + (j - d))) (word_in rows.old (b + (j - d))) (word_in rows.old (d + (j - d)))) rows.old rows.new }
    ensures zero_len { lane_count zero.new ≡ lane_count zero.old }
    ensures zero { Marks i (is_on mask.now i && divides_by_0 op (number_of bt (word_in rows.old (b + i)))) zero.old zero.new }
{
    if mask.get(i) {
        rows[d + i] = quotient(op, t, rows[a + i], rows[b + i], bt, rows[d + i], zero, i);
    }
}
