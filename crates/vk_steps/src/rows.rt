// An operation on registers and masks in all lanes of a frame.

ghost use Rattle.std.specs.Prelude.{◌≡◌, ℕ, ◌*◌, ◌^◌, ◌<◌, true};
ghost use Rattle.vk_types.specs.Formats.{type_number};
ghost use Rattle.vk_code.specs.Listing.{listing_of, reg_type};
ghost use Rattle.vk_object.specs.Lane.{number_at, ty_at};
ghost use Rattle.vk_object.specs.Memory.{moved};
ghost use Rattle.vk_frames.specs.Each.{each};
ghost use Rattle.vk_frames.specs.Frames.{FitsAs, IsFrame, lanes_of};
ghost use Rattle.vk_runs.specs.Words.{HasWords};
ghost use Rattle.vk_steps.specs.Locals.{changed, is_local, live_as, with_pointer};
ghost use Rattle.vk_steps.specs.Places.{FitsPlace, IsGood, IsSound, IsTyped, entry, listing, regs};

use crate::place::Place;
use crate::registers::{
    binary, convert_in, copy, mask_and, mask_but, mask_of, mask_or, number_lanes, offset, set,
    ty_at, unary,
};
use vk_code::{Code, Instr, Operation};
use vk_frames::Frame;
use vk_types::Word;

/// Each lane becomes what the instruction's operation, one on registers and masks alone, makes of it.
pub fn operate(place: &Place<'_>, frame: &mut Frame<'_>, instr: Instr, operation: Operation)
    requires sound { IsSound place.now }
    requires fits { FitsPlace place.now frame.old }
    requires good { IsGood place.now instr operation }
    requires local { is_local operation ≡ true }
    ensures fits { FitsPlace place.now frame.new }
    ensures lanes { lanes_of frame.new ≡ each (entry place.now).lanes (changed (regs place.now) instr.m operation) (lanes_of frame.old) }
{
    operate_all(place, frame, instr.m, operation);
}

// The same by the mask and the operation.
fn operate_all(place: &Place<'_>, frame: &mut Frame<'_>, m: u16, operation: Operation)
    requires fits { FitsPlace place.now frame.old }
    requires mask { m < (listing place.now).routine.masks }
    requires typed { IsTyped place.now operation }
    requires local { is_local operation ≡ true }
    ensures fits { FitsAs frame.old frame.new }
    ensures lanes { lanes_of frame.new ≡ each frame.old.lanes (changed (regs place.now) m operation) (lanes_of frame.old) }
{
    let code = place.code;
    match operation {
        Operation::Const { d, value, .. } => set(frame, m, d, value),
        Operation::Copy { d, a } => copy(frame, m, d, a),
        Operation::Convert { d, a } => convert_in(frame, code, m, d, a),
        Operation::Binary { op, ty, d, a, b } => {
            binary(frame, code, m, op, ty, d, a, b, ty_at(code, b))
        }
        Operation::Compare { op, ty, d, a, b } => binary(frame, code, m, op, ty, d, a, b, ty),
        Operation::Unary { op, ty, d, a } => unary(frame, code, m, op, ty, d, a),
        Operation::Lane { d } => number_lanes(frame, m, d),
        Operation::PtrAdd { d, a, b } => offsets(frame, code, m, d, a, b),
        Operation::Addr { d, object } => set(frame, m, d, address(object)),
        Operation::MaskOf { d, a } => mask_of(frame, m, d, a),
        Operation::MaskAnd { d, a, b } => mask_and(frame, d, a, b),
        Operation::MaskOr { d, a, b } => mask_or(frame, d, a, b),
        Operation::MaskBut { d, a, b } => mask_but(frame, d, a, b),
        Operation::Load { .. } => unreachable!(),
        Operation::Store { .. } => unreachable!(),
        Operation::Loop { .. } => unreachable!(),
        Operation::Call { .. } => unreachable!(),
        Operation::Print { .. } => unreachable!(),
        Operation::SimdLoop { .. } => unreachable!(),
    }
}

// The pointer to the first element of an object.
fn address(object: u32) -> Word
    ensures { result.0 ≡ object * 2 ^ 32 }
{
    Word(u64::from(object) << 32)
}

// `d :=` the pointer `a` moved by the number in `b`, lane by lane.
fn offsets(frame: &mut Frame<'_>, code: &Code, m: u16, d: u16, a: u16, b: u16)
    requires fits { IsFrame frame.old }
    requires mask { m < frame.old.masks }
    requires d { d < frame.old.registers }
    requires words { (j : ℕ) → HasWords (listing_of code.now).routine.regs (lanes_of frame.old j) }
    requires a { a < frame.old.registers }
    requires b { b < frame.old.registers }
    requires right { reg_type (listing_of code.now).routine.regs b ≡ type_number (ty_at (listing_of code.now).routine.regs b) }
    ensures fits { FitsAs frame.old frame.new }
    ensures lanes { lanes_of frame.new ≡ each frame.old.lanes (λ j l. live_as m l (with_pointer l d (moved (l.reg a) (number_at (listing_of code.now).routine.regs l b)))) (lanes_of frame.old) }
{
    for lane in 0..frame.lanes {
        offset(frame, code, m, d, a, b, lane);
    }
}
