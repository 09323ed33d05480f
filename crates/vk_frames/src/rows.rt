// Operators on whole rows of registers.

ghost use Rattle.std.specs.Prelude.{◌≡◌, ℕ, ◌<◌, ◌&&◌};
ghost use Rattle.vk_types.specs.Numbers.{number_of};
ghost use Rattle.vk_types.specs.Operators.{divides_by_0};
ghost use Rattle.vk_lanes.specs.Kernels.{AreOperands, convert_word, op1_word, op2_word};
ghost use Rattle.vk_lanes.specs.Masks.{is_on, lane_count};
ghost use Rattle.vk_lanes.specs.Words.{AreTyped};
ghost use Rattle.vk_frames.specs.Frames.{FitsAs, IsFrame, lanes_of};
ghost use Rattle.vk_frames.specs.Written.{gives_row};

use crate::frame::Frame;
use vk_lanes::{LaneMask, rows_convert, rows_copy, rows_fill, rows_number, rows1, rows2};
use vk_types::{Op1, Op2, Ty, Word};

/// `d := a op b` in the lanes that are on in `live`, where `a` is of type `t` and `b` of type `bt` (C17 6.5.5 to 6.5.12).
///
/// Where the divisor of a quotient or remainder is 0 the register stays, and the lane is on in `zero`.
pub fn binary_row(
    frame: &mut Frame<'_>,
    op: Op2,
    t: Ty,
    live: &LaneMask,
    a: u16,
    b: u16,
    bt: Ty,
    d: u16,
    zero: &mut LaneMask,
)
    requires fits { IsFrame frame.old }
    requires live { lane_count live.now ≡ frame.old.lanes }
    requires a { a < frame.old.registers }
    requires b { b < frame.old.registers }
    requires d { d < frame.old.registers }
    requires types { AreOperands op t bt }
    requires left { AreTyped t (is_on live.now) (λ j. (lanes_of frame.old j).reg a) }
    requires right { AreTyped bt (is_on live.now) (λ j. (lanes_of frame.old j).reg b) }
    ensures fits { FitsAs frame.old frame.new }
    ensures lanes { lanes_of frame.new ≡ gives_row (is_on live.now) d (λ j l. op2_word op t bt (l.reg a) (l.reg b) (l.reg d)) (lanes_of frame.old) }
    ensures zero_len { lane_count zero.new ≡ frame.old.lanes }
    ensures zero { (j : ℕ) → is_on zero.new j ≡ (is_on live.now j && divides_by_0 op (number_of bt ((lanes_of frame.old j).reg b))) }
{
    let left = frame.start(usize::from(a));
    let right = frame.start(usize::from(b));
    let written = frame.start(usize::from(d));
    rows2(op, t, live, frame.words, left, right, bt, written, zero);
}

/// `d := op a` in the lanes that are on in `live`, where `a` is of type `t` (C17 6.5.3.3).
pub fn unary_row(frame: &mut Frame<'_>, op: Op1, t: Ty, live: &LaneMask, a: u16, d: u16)
    requires fits { IsFrame frame.old }
    requires live { lane_count live.now ≡ frame.old.lanes }
    requires a { a < frame.old.registers }
    requires d { d < frame.old.registers }
    requires operand { AreTyped t (is_on live.now) (λ j. (lanes_of frame.old j).reg a) }
    ensures fits { FitsAs frame.old frame.new }
    ensures lanes { lanes_of frame.new ≡ gives_row (is_on live.now) d (λ j l. op1_word op t (l.reg a)) (lanes_of frame.old) }
{
    let operand = frame.start(usize::from(a));
    let written = frame.start(usize::from(d));
    rows1(op, t, live, frame.words, operand, written);
}

/// `d := a`, converted from one type to another, in the lanes that are on in `live` (C17 6.3.1.3).
pub fn convert_row(frame: &mut Frame<'_>, from: Ty, to: Ty, live: &LaneMask, a: u16, d: u16)
    requires fits { IsFrame frame.old }
    requires live { lane_count live.now ≡ frame.old.lanes }
    requires a { a < frame.old.registers }
    requires d { d < frame.old.registers }
    requires operand { AreTyped from (is_on live.now) (λ j. (lanes_of frame.old j).reg a) }
    ensures fits { FitsAs frame.old frame.new }
    ensures lanes { lanes_of frame.new ≡ gives_row (is_on live.now) d (λ j l. convert_word from to (l.reg a)) (lanes_of frame.old) }
{
    let operand = frame.start(usize::from(a));
    let written = frame.start(usize::from(d));
    rows_convert(from, to, live, frame.words, operand, written);
}

/// `d := a` in the lanes that are on in `live`.
pub fn copy_row(frame: &mut Frame<'_>, live: &LaneMask, a: u16, d: u16)
    requires fits { IsFrame frame.old }
    requires live { lane_count live.now ≡ frame.old.lanes }
    requires a { a < frame.old.registers }
    requires d { d < frame.old.registers }
    ensures fits { FitsAs frame.old frame.new }
    ensures lanes { lanes_of frame.new ≡ gives_row (is_on live.now) d (λ j l. l.reg a) (lanes_of frame.old) }
{
    let operand = frame.start(usize::from(a));
    let written = frame.start(usize::from(d));
    rows_copy(live, frame.words, operand, written);
}

/// `d :=` a word in the lanes that are on in `live`.
pub fn fill_row(frame: &mut Frame<'_>, live: &LaneMask, d: u16, word: Word)
    requires fits { IsFrame frame.old }
    requires live { lane_count live.now ≡ frame.old.lanes }
    requires d { d < frame.old.registers }
    ensures fits { FitsAs frame.old frame.new }
    ensures lanes { lanes_of frame.new ≡ gives_row (is_on live.now) d (λ j l. word.0) (lanes_of frame.old) }
{
    let written = frame.start(usize::from(d));
    rows_fill(live, frame.words, written, word);
}

/// `d :=` the number of the lane in the lanes that are on in `live`.
pub fn number_row(frame: &mut Frame<'_>, live: &LaneMask, d: u16)
    requires fits { IsFrame frame.old }
    requires live { lane_count live.now ≡ frame.old.lanes }
    requires d { d < frame.old.registers }
    ensures fits { FitsAs frame.old frame.new }
    ensures lanes { lanes_of frame.new ≡ gives_row (is_on live.now) d (λ j l. j) (lanes_of frame.old) }
{
    let written = frame.start(usize::from(d));
    rows_number(live, frame.words, written);
}
