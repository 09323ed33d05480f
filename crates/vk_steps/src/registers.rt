// Operations on registers and masks, on whole rows but for the offsets of pointers.

ghost use Rattle.std.specs.Prelude.{◌≡◌, ◌*◌, ◌^◌, ◌<◌, ◌==◌, ℕ, cond, false, not, ◌&&◌, ◌||◌, pos, ◌≤ℤ◌, ◌-◌, int_le, neg_ℤ};
ghost use Rattle.vk_types.specs.declared.types.Stop.TheVariants.{Divide};
ghost use Rattle.vk_types.specs.Formats.{type_number};
ghost use Rattle.vk_types.specs.Numbers.{IsCanonical, number_of, word_of, wrap_number};
ghost use Rattle.vk_types.specs.Operators.{op1_number, op2_number};
ghost use Rattle.vk_code.specs.Listing.{listing_of, reg_type};
ghost use Rattle.vk_lanes.specs.Kernels.{AreOperands};
ghost use Rattle.vk_lanes.specs.Masks.{is_on, lane_count};
ghost use Rattle.vk_object.specs.Lane.{is_live, number_at, ty_at, with_mask, with_reg, with_stop};
ghost use Rattle.vk_object.specs.Machine.{put};
ghost use Rattle.vk_object.specs.Memory.{moved};
ghost use Rattle.vk_frames.specs.Each.{each};
ghost use Rattle.vk_frames.specs.Frames.{FitsAs, IsFrame, lanes_of};
ghost use Rattle.vk_runs.specs.Words.{HasWords};
ghost use Rattle.vk_steps.specs.Inner.Results.{HasPointer, is_division, with_result};
ghost use Rattle.vk_steps.specs.Locals.{live_as, with_number, with_pointer};

use vk_code::Code;
use vk_frames::Frame;
use vk_frames::masks::{live_lanes, nonzero_lanes, on_lanes, set_mask, stop_lanes};
use vk_frames::rows::{binary_row, convert_row, copy_row, fill_row, number_row, unary_row};
use vk_kinds::CType;
use vk_lanes::LaneMask;
use vk_types::{Op1, Op2, Stop, Ty, Word, number};

/// The type of the numbers of a register.
pub fn ty_at(code: &Code, register: u16) -> Ty
    ensures { result ≡ ty_at (listing_of code.now).routine.regs register }
{
    match code.regs.get(usize::from(register)) {
        Some(CType::Int(ty)) => *ty,
        Some(CType::Ptr { to, .. }) => *to,
        Some(CType::Void) => Ty::I64,
        None => Ty::I64,
    }
}

/// The word of a register of this type.
pub fn operand(frame: &Frame<'_>, code: &Code, ty: Ty, register: u16, lane: usize) -> Word
    requires fits { IsFrame frame.now }
    requires words { HasWords (listing_of code.now).routine.regs (lanes_of frame.now lane) }
    requires register { register < frame.now.registers }
    requires lane { lane < frame.now.lanes }
    requires typed { reg_type (listing_of code.now).routine.regs register ≡ type_number ty }
    ensures word { result.0 ≡ (lanes_of frame.now lane).reg register }
    ensures canonical { IsCanonical ty result.0 }
{
    frame.word(register, lane)
}

/// The lane gets a word or stops, if it is live.
pub fn settle(frame: &mut Frame<'_>, m: u16, d: u16, lane: usize, outcome: Result<Word, Stop>)
    requires fits { IsFrame frame.old }
    requires mask { m < frame.old.masks }
    requires lane { lane < frame.old.lanes }
    requires d { d < frame.old.registers }
    ensures fits { FitsAs frame.old frame.new }
    ensures lanes { lanes_of frame.new ≡ put (lanes_of frame.old) lane (live_as m (lanes_of frame.old lane) (with_result (lanes_of frame.old lane) d outcome)) }
{
    if !frame.is_live(m, lane) {
        return;
    }
    match outcome {
        Ok(word) => frame.set_word(d, lane, word),
        Err(stop) => frame.set_stop(lane, stop),
    }
}

/// `d :=` a word.
pub fn set(frame: &mut Frame<'_>, m: u16, d: u16, word: Word)
    requires fits { IsFrame frame.old }
    requires mask { m < frame.old.masks }
    requires d { d < frame.old.registers }
    ensures fits { FitsAs frame.old frame.new }
    ensures lanes { lanes_of frame.new ≡ each frame.old.lanes (λ j l. live_as m l (with_reg l d word.0)) (lanes_of frame.old) }
{
    let live = live_lanes(frame, m);
    fill_row(frame, &live, d, word);
}

/// `d :=` the number of the lane.
pub fn number_lanes(frame: &mut Frame<'_>, m: u16, d: u16)
    requires fits { IsFrame frame.old }
    requires mask { m < frame.old.masks }
    requires d { d < frame.old.registers }
    ensures fits { FitsAs frame.old frame.new }
    ensures lanes { lanes_of frame.new ≡ each frame.old.lanes (λ j l. live_as m l (with_reg l d j)) (lanes_of frame.old) }
{
    let live = live_lanes(frame, m);
    number_row(frame, &live, d);
}

/// `d := a`.
pub fn copy(frame: &mut Frame<'_>, m: u16, d: u16, a: u16)
    requires fits { IsFrame frame.old }
    requires mask { m < frame.old.masks }
    requires d { d < frame.old.registers }
    requires a { a < frame.old.registers }
    ensures fits { FitsAs frame.old frame.new }
    ensures lanes { lanes_of frame.new ≡ each frame.old.lanes (λ j l. live_as m l (with_reg l d (l.reg a))) (lanes_of frame.old) }
{
    let live = live_lanes(frame, m);
    copy_row(frame, &live, a, d);
}

/// `d := a`, converted from its type to that of `d` (C17 6.3.1.3).
pub fn convert_in(frame: &mut Frame<'_>, code: &Code, m: u16, d: u16, a: u16)
    requires fits { IsFrame frame.old }
    requires mask { m < frame.old.masks }
    requires d { d < frame.old.registers }
    requires words { (j : ℕ) → HasWords (listing_of code.now).routine.regs (lanes_of frame.old j) }
    requires a { a < frame.old.registers }
    requires typed { reg_type (listing_of code.now).routine.regs a ≡ type_number (ty_at (listing_of code.now).routine.regs a) }
    ensures fits { FitsAs frame.old frame.new }
    ensures lanes { lanes_of frame.new ≡ each frame.old.lanes (λ j l. live_as m l (with_reg l d (word_of (wrap_number (ty_at (listing_of code.now).routine.regs d) (number_at (listing_of code.now).routine.regs l a))))) (lanes_of frame.old) }
{
    let from = ty_at(code, a);
    let to = ty_at(code, d);
    let live = live_lanes(frame, m);
    convert_row(frame, from, to, &live, a, d);
}

// Whether the operator stops at a right operand of 0.
fn is_division(op: Op2) -> bool
    ensures { result ≡ is_division op }
{
    matches!(op, Op2::Div | Op2::Rem)
}

// Stops the lanes in which something was divided by 0.
fn stop_divided(frame: &mut Frame<'_>, op: Op2, zero: &LaneMask)
    requires fits { IsFrame frame.old }
    requires zero { lane_count zero.now ≡ frame.old.lanes }
    requires none { is_division op ≡ false → (j : ℕ) → is_on zero.now j ≡ false }
    ensures fits { FitsAs frame.old frame.new }
    ensures lanes { lanes_of frame.new ≡ each frame.old.lanes (λ j l. cond (is_on zero.now j) (with_stop l Divide) l) (lanes_of frame.old) }
{
    if !is_division(op) {
        return;
    }
    stop_lanes(frame, zero, Stop::Divide);
}

/// `d := a op b`, where `a` is of type `ty` and `b` of type `right` (C17 6.5.5 to 6.5.12); a divisor of 0 stops the lane.
pub fn binary(
    frame: &mut Frame<'_>,
    code: &Code,
    m: u16,
    op: Op2,
    ty: Ty,
    d: u16,
    a: u16,
    b: u16,
    right: Ty,
)
    requires fits { IsFrame frame.old }
    requires mask { m < frame.old.masks }
    requires d { d < frame.old.registers }
    requires words { (j : ℕ) → HasWords (listing_of code.now).routine.regs (lanes_of frame.old j) }
    requires a { a < frame.old.registers }
    requires b { b < frame.old.registers }
    requires left { reg_type (listing_of code.now).routine.regs a ≡ type_number ty }
    requires right { reg_type (listing_of code.now).routine.regs b ≡ type_number right }
    requires operands { AreOperands op ty right }
    ensures fits { FitsAs frame.old frame.new }
    ensures lanes { lanes_of frame.new ≡ each frame.old.lanes (λ j l. live_as m l (with_number l d (op2_number op ty (number_of ty (l.reg a)) (number_of right (l.reg b))))) (lanes_of frame.old) }
{
    let live = live_lanes(frame, m);
    let mut zero = LaneMask::new(frame.lanes);
    binary_row(frame, op, ty, &live, a, b, right, d, &mut zero);
    stop_divided(frame, op, &zero);
}

/// `d := op a`, where `a` is of type `ty` (C17 6.5.3.3).
pub fn unary(frame: &mut Frame<'_>, code: &Code, m: u16, op: Op1, ty: Ty, d: u16, a: u16)
    requires fits { IsFrame frame.old }
    requires mask { m < frame.old.masks }
    requires d { d < frame.old.registers }
    requires words { (j : ℕ) → HasWords (listing_of code.now).routine.regs (lanes_of frame.old j) }
    requires a { a < frame.old.registers }
    requires typed { reg_type (listing_of code.now).routine.regs a ≡ type_number ty }
    ensures fits { FitsAs frame.old frame.new }
    ensures lanes { lanes_of frame.new ≡ each frame.old.lanes (λ j l. live_as m l (with_reg l d (word_of (op1_number op ty (number_of ty (l.reg a)))))) (lanes_of frame.old) }
{
    let live = live_lanes(frame, m);
    unary_row(frame, op, ty, &live, a, d);
}

/// A pointer moved by so many elements, where its offset stays in 32 bits.
pub fn moved(pointer: Word, by: i128) -> Result<Word, Stop>
    requires low { neg_ℤ (pos (2 ^ 64)) ≤ℤ by }
    requires high { by ≤ℤ pos (2 ^ 64) }
    ensures { HasPointer result (moved pointer.0 by) }
{
    let offset = ((pointer.0 % (1 << 32)) as u32).cast_signed();
    let moved = i128::from(offset) + by;
    if !is_offset(moved) {
        return Err(Stop::Bounds);
    }
    Ok(Word(pointer.0 / (1 << 32) * (1 << 32) + moved.rem_euclid(1 << 32) as u64))
}

// Whether the offset has 32 bits.
fn is_offset(offset: i128) -> bool
    ensures { result ≡ (int_le (neg_ℤ (pos (2 ^ 31))) offset && int_le offset (pos (2 ^ 31 - 1))) }
{
    -(1 << 31) <= offset && offset <= (1 << 31) - 1
}

/// `d :=` the pointer `a` moved by the number in `b`; the lane stops where the offset leaves 32 bits.
pub fn offset(frame: &mut Frame<'_>, code: &Code, m: u16, d: u16, a: u16, b: u16, lane: usize)
    requires fits { IsFrame frame.old }
    requires mask { m < frame.old.masks }
    requires lane { lane < frame.old.lanes }
    requires d { d < frame.old.registers }
    requires words { HasWords (listing_of code.now).routine.regs (lanes_of frame.old lane) }
    requires a { a < frame.old.registers }
    requires b { b < frame.old.registers }
    requires right { reg_type (listing_of code.now).routine.regs b ≡ type_number (ty_at (listing_of code.now).routine.regs b) }
    ensures fits { FitsAs frame.old frame.new }
    ensures lanes { lanes_of frame.new ≡ put (lanes_of frame.old) lane (live_as m (lanes_of frame.old lane) (with_pointer (lanes_of frame.old lane) d (moved ((lanes_of frame.old lane).reg a) (number_at (listing_of code.now).routine.regs (lanes_of frame.old lane) b)))) }
{
    let ty = ty_at(code, b);
    let by = operand(frame, code, ty, b, lane);
    let pointer = frame.word(a, lane);
    settle(frame, m, d, lane, moved(pointer, number(ty, by)));
}

/// Mask `d :=` whether the lane is live and `a` is not 0.
pub fn mask_of(frame: &mut Frame<'_>, m: u16, d: u16, a: u16)
    requires fits { IsFrame frame.old }
    requires mask { m < frame.old.masks }
    requires d { d < frame.old.masks }
    requires a { a < frame.old.registers }
    ensures fits { FitsAs frame.old frame.new }
    ensures lanes { lanes_of frame.new ≡ each frame.old.lanes (λ j l. with_mask l d (is_live m l && not (l.reg a == 0))) (lanes_of frame.old) }
{
    let live = live_lanes(frame, m);
    let on = nonzero_lanes(frame, &live, a);
    set_mask(frame, d, &on);
}

/// Mask `d := a` and `b`.
pub fn mask_and(frame: &mut Frame<'_>, d: u16, a: u16, b: u16)
    requires fits { IsFrame frame.old }
    requires d { d < frame.old.masks }
    requires a { a < frame.old.masks }
    requires b { b < frame.old.masks }
    ensures fits { FitsAs frame.old frame.new }
    ensures lanes { lanes_of frame.new ≡ each frame.old.lanes (λ j l. with_mask l d (l.on a && l.on b)) (lanes_of frame.old) }
{
    let left = on_lanes(frame, a);
    let right = on_lanes(frame, b);
    let mut on = LaneMask::new(frame.lanes);
    vk_lanes::mask_and(&left, &right, &mut on);
    set_mask(frame, d, &on);
}

/// Mask `d := a` or `b`.
pub fn mask_or(frame: &mut Frame<'_>, d: u16, a: u16, b: u16)
    requires fits { IsFrame frame.old }
    requires d { d < frame.old.masks }
    requires a { a < frame.old.masks }
    requires b { b < frame.old.masks }
    ensures fits { FitsAs frame.old frame.new }
    ensures lanes { lanes_of frame.new ≡ each frame.old.lanes (λ j l. with_mask l d (l.on a || l.on b)) (lanes_of frame.old) }
{
    let left = on_lanes(frame, a);
    let right = on_lanes(frame, b);
    let mut on = LaneMask::new(frame.lanes);
    vk_lanes::mask_or(&left, &right, &mut on);
    set_mask(frame, d, &on);
}

/// Mask `d := a` and not `b`.
pub fn mask_but(frame: &mut Frame<'_>, d: u16, a: u16, b: u16)
    requires fits { IsFrame frame.old }
    requires d { d < frame.old.masks }
    requires a { a < frame.old.masks }
    requires b { b < frame.old.masks }
    ensures fits { FitsAs frame.old frame.new }
    ensures lanes { lanes_of frame.new ≡ each frame.old.lanes (λ j l. with_mask l d (l.on a && not (l.on b))) (lanes_of frame.old) }
{
    let left = on_lanes(frame, a);
    let right = on_lanes(frame, b);
    let mut on = LaneMask::new(frame.lanes);
    vk_lanes::mask_but(&left, &right, &mut on);
    set_mask(frame, d, &on);
}
