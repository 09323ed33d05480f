// Whether the arguments of the active lanes fit their parameters' kinds.

ghost use Rattle.std.specs.Prelude.{◌≡◌, ℕ, ◌*◌, ◌<◌, ◌≤◌, ◌^◌, IfSome, IsNone, length, map, get_or, true, false, ℤ, pos, neg_ℤ, ◌-ℤ◌, ◌+ℤ◌, ◌*ℤ◌, ◌≤ℤ◌, ◌/◌, ◌%◌};
ghost use Rattle.std.specs.Bool.{Decides};
ghost use Rattle.std.specs.Int.{w32, cast_signed};
ghost use Rattle.std.specs.Ordering.{int_eq};
ghost use Rattle.vk_types.specs.Numbers.{IsInRange, wrap_number};
ghost use Rattle.vk_kinds.specs.declared.kinds.Kind.TheVariants.{Vector};
ghost use Rattle.vk_kinds.specs.declared.kinds.Step.TheVariants.{By};
ghost use Rattle.vk_lanes.specs.Masks.{is_on, lane_count};
ghost use Rattle.vk_meaning.specs.Types.{type_at};
ghost use Rattle.vk_meaning.specs.Lanes.{AreFitting, FitsFrom, IsFirstActive, IsMoved, IsWord, number_as, size_of, step_of};
ghost use Rattle.vk_arguments.specs.Arguments.{IsLeastPair, IsMisfitAt, kinds_of, passed};
ghost use Rattle.vk_arguments.specs.Inner.Fitting.{AreWords, IsFirstMisfit};

use crate::passed::{Callee, word_of};
use vk_kinds::{CType, Kind, Param, Step};
use vk_lanes::LaneMask;
use vk_types::{Ty, Word, number, size, wrap};

/// The least pair of a parameter and an active lane whose argument does not fit that of the first active lane by the parameter's
/// kind: another value of a uniform argument, or none that a linear one goes on to. `words` has a word for each parameter and lane.
pub fn first_misfit(callee: &Callee, words: &[Word], mask: &LaneMask) -> Option<(usize, usize)>
    requires parameters { length callee.now.types.now < 2 ^ 32 }
    requires lanes { callee.now.lanes ≤ 256 }
    requires mask { lane_count mask.now ≡ callee.now.lanes }
    requires words { AreWords callee.now.types.now callee.now.lanes words.now }
    ensures misfit { IfSome result (λ at. IsLeastPair (IsMisfitAt callee.now.types.now (kinds_of callee.now.params.now) callee.now.lanes
        (passed callee.now.lanes words.now) (is_on mask.now)) at.0 at.1) }
    ensures fitting { IsNone result → AreFitting callee.now.types.now (kinds_of callee.now.params.now) callee.now.lanes (passed callee.now.lanes words.now) (is_on mask.now) }
{
    let Some(first) = first_on(mask) else {
        return None;
    };
    for parameter in 0..callee.types.len() {
        if let Some(lane) = misfit_of(callee, words, mask, first, parameter) {
            return Some((parameter, lane));
        }
    }
    None
}

// The first lane that is on.
fn first_on(mask: &LaneMask) -> Option<usize>
    ensures found { IfSome result (IsFirstActive (lane_count mask.now) (is_on mask.now)) }
    ensures none { IsNone result → (lane : ℕ) → lane < lane_count mask.now → is_on mask.now lane ≡ false }
{
    for lane in 0..mask.len() {
        if mask.get(lane) {
            return Some(lane);
        }
    }
    None
}

// The first active lane whose argument does not fit that of `first`.
fn misfit_of(
    callee: &Callee,
    words: &[Word],
    mask: &LaneMask,
    first: usize,
    parameter: usize,
) -> Option<usize>
    requires parameters { length callee.now.types.now < 2 ^ 32 }
    requires lanes { callee.now.lanes ≤ 256 }
    requires mask { lane_count mask.now ≡ callee.now.lanes }
    requires words { AreWords callee.now.types.now callee.now.lanes words.now }
    requires first { first < callee.now.lanes }
    requires parameter { parameter < length callee.now.types.now }
    ensures { IsFirstMisfit callee.now.lanes (is_on mask.now)
        (FitsFrom (get_or (kinds_of callee.now.params.now) parameter Vector) (type_at callee.now.types.now parameter) callee.now.types.now (passed callee.now.lanes words.now) parameter first) result }
{
    for lane in 0..callee.lanes {
        if mask.get(lane) && !fits(callee, words, parameter, first, lane) {
            return Some(lane);
        }
    }
    None
}

// Whether the argument of a lane fits that of `first`.
fn fits(callee: &Callee, words: &[Word], parameter: usize, first: usize, lane: usize) -> bool
    requires parameters { length callee.now.types.now < 2 ^ 32 }
    requires lanes { callee.now.lanes ≤ 256 }
    requires words { AreWords callee.now.types.now callee.now.lanes words.now }
    requires first { first < callee.now.lanes }
    requires lane { lane < callee.now.lanes }
    requires parameter { parameter < length callee.now.types.now }
    ensures { Decides result (FitsFrom (get_or (kinds_of callee.now.params.now) parameter Vector) (type_at callee.now.types.now parameter) callee.now.types.now
        (passed callee.now.lanes words.now) parameter first lane) }
{
    let from = word_of(words, callee.lanes, parameter, first);
    let to = word_of(words, callee.lanes, parameter, lane);
    match kind_of(callee.params, parameter) {
        Kind::Vector => true,
        Kind::Uniform => to == from,
        Kind::Linear(step) => {
            let ty = type_of(callee.types, parameter);
            let by = step_of(callee, words, first, ty, step);
            is_moved(ty, times(lane, first, by), from, to)
        }
        Kind::Ref(_) => true,
        Kind::Val(_) => true,
        Kind::Uval(_) => true,
    }
}

// The kind of a parameter.
fn kind_of(params: &[Param], parameter: usize) -> Kind
    ensures { result ≡ get_or (kinds_of params.now) parameter Vector }
{
    match params.get(parameter) {
        Some(param) => param.kind,
        None => Kind::Vector,
    }
}

// The type of a parameter.
fn type_of(types: &[CType], parameter: usize) -> CType
    ensures { result ≡ type_at types.now parameter }
{
    types.get(parameter).copied().unwrap_or(CType::Void)
}

// How far a linear argument goes on from one lane to the next: a number, or elements of a pointer.
fn step_of(callee: &Callee, words: &[Word], first: usize, ty: CType, step: Step) -> i128
    requires parameters { length callee.now.types.now < 2 ^ 32 }
    requires lanes { callee.now.lanes ≤ 256 }
    requires words { AreWords callee.now.types.now callee.now.lanes words.now }
    requires first { first < callee.now.lanes }
    ensures step { result ≡ step_of ty step (λ q. number_as (type_at callee.now.types.now q) (passed callee.now.lanes words.now q first)) }
    ensures low { neg_ℤ (pos (2 ^ 64)) ≤ℤ result }
    ensures high { result ≤ℤ pos (2 ^ 64) }
{
    match step {
        Step::One => constant_step(ty, 1),
        Step::By(number) => constant_step(ty, number),
        Step::Arg(place) => argument_step(callee, words, usize::from(place), first),
    }
}

// A constant step, which is in bytes for a pointer.
fn constant_step(ty: CType, step: i32) -> i128
    ensures step { (number_at : ℕ → ℤ) → result ≡ step_of ty (By step) number_at }
    ensures low { neg_ℤ (pos (2 ^ 64)) ≤ℤ result }
    ensures high { result ≤ℤ pos (2 ^ 64) }
{
    match ty {
        CType::Ptr { to, .. } => i128::from(step) / i128::from(size(to)),
        CType::Int(_) => i128::from(step),
        CType::Void => i128::from(step),
    }
}

// The number that an argument has in a lane, 0 where it is none.
fn argument_step(callee: &Callee, words: &[Word], parameter: usize, lane: usize) -> i128
    requires parameters { length callee.now.types.now < 2 ^ 32 }
    requires lanes { callee.now.lanes ≤ 256 }
    requires words { AreWords callee.now.types.now callee.now.lanes words.now }
    requires lane { lane < callee.now.lanes }
    ensures number { result ≡ number_as (type_at callee.now.types.now parameter) (passed callee.now.lanes words.now parameter lane) }
    ensures low { neg_ℤ (pos (2 ^ 64)) ≤ℤ result }
    ensures high { result ≤ℤ pos (2 ^ 64) }
{
    match callee.types.get(parameter) {
        Some(CType::Int(ty)) => number(*ty, word_of(words, callee.lanes, parameter, lane)),
        _ => 0,
    }
}

// So many steps as from one lane to another.
fn times(to: usize, from: usize, step: i128) -> i128
    requires to { to < 256 }
    requires from { from < 256 }
    requires low { neg_ℤ (pos (2 ^ 64)) ≤ℤ step }
    requires high { step ≤ℤ pos (2 ^ 64) }
    ensures product { result ≡ (pos to -ℤ pos from) *ℤ step }
    ensures low { neg_ℤ (pos (2 ^ 73)) ≤ℤ result }
    ensures high { result ≤ℤ pos (2 ^ 73) }
{
    product(distance(to, from), step)
}

// How many lanes one is behind another.
fn distance(to: usize, from: usize) -> i128
    requires to { to < 256 }
    requires from { from < 256 }
    ensures distance { result ≡ pos to -ℤ pos from }
    ensures low { neg_ℤ (pos 256) ≤ℤ result }
    ensures high { result ≤ℤ pos 256 }
{
    to as i128 - from as i128
}

fn product(lanes: i128, step: i128) -> i128
    requires from { neg_ℤ (pos 256) ≤ℤ lanes }
    requires to { lanes ≤ℤ pos 256 }
    requires low { neg_ℤ (pos (2 ^ 64)) ≤ℤ step }
    requires high { step ≤ℤ pos (2 ^ 64) }
    ensures { result ≡ lanes *ℤ step }
{
    lanes * step
}

// Whether a word of the type is another one moved by so much: modulo the type's range, or for a pointer in one array.
fn is_moved(ty: CType, by: i128, from: Word, to: Word) -> bool
    requires low { neg_ℤ (pos (2 ^ 73)) ≤ℤ by }
    requires high { by ≤ℤ pos (2 ^ 73) }
    requires from { IsWord ty from.0 }
    requires to { IsWord ty to.0 }
    ensures { Decides result (IsMoved ty by from.0 to.0) }
{
    match ty {
        CType::Void => true,
        CType::Int(t) => is_moved_number(t, by, number(t, from), number(t, to)),
        CType::Ptr { .. } => {
            array(to) == array(from) && is_moved_number(Ty::I32, by, offset(from), offset(to))
        }
    }
}

// Whether a number is another one of the type moved by so much.
fn is_moved_number(t: Ty, by: i128, from: i128, to: i128) -> bool
    requires low { neg_ℤ (pos (2 ^ 73)) ≤ℤ by }
    requires high { by ≤ℤ pos (2 ^ 73) }
    requires from { IsInRange t from }
    ensures { Decides result (to ≡ wrap_number t (from +ℤ by)) }
{
    is_equal(to, wrapped(t, sum(t, from, by)))
}

fn is_equal(left: i128, right: i128) -> bool
    ensures { result ≡ int_eq left right }
{
    left == right
}

fn sum(t: Ty, value: i128, by: i128) -> i128
    requires low { neg_ℤ (pos (2 ^ 73)) ≤ℤ by }
    requires high { by ≤ℤ pos (2 ^ 73) }
    requires value { IsInRange t value }
    ensures { result ≡ value +ℤ by }
{
    value + by
}

// The number of the type that differs from a number by a multiple of 2 to the width.
fn wrapped(t: Ty, value: i128) -> i128
    ensures { result ≡ wrap_number t value }
{
    number(t, wrap(t, value))
}

// The number of the array of a pointer.
fn array(pointer: Word) -> u64
    ensures { result ≡ pointer.0 / 2 ^ 32 }
{
    pointer.0 / (1 << 32)
}

// The offset of a pointer.
fn offset(pointer: Word) -> i128
    ensures offset { result ≡ cast_signed w32 (pointer.0 % 2 ^ 32) }
    ensures in_range { IsInRange Ty.I32 result }
{
    i128::from(((pointer.0 % (1 << 32)) as u32).cast_signed())
}
