// The least pair of lanes that are not apart.

ghost use Rattle.std.specs.Prelude.{◌≡◌, ◌+◌, ◌<◌, ◌≤◌, ◌^◌, length};
ghost use Rattle.vk_kinds.specs.declared.heads.CType.{CType as CTypeOf};
ghost use Rattle.vk_lanes.specs.Masks.{is_on, lane_count};
ghost use Rattle.vk_arguments.specs.Arguments.{passed};
ghost use Rattle.vk_pointer_texts.specs.Heads.{arrays_of};
ghost use Rattle.vk_apart.specs.Inner.Pairs.{IsLeast, IsNext, active_meet, is_met, lanes_meet};
ghost use Rattle.vk_apart.specs.Inner.Reaches.{reach};

use crate::reach::{Reach, meet, reach_of};
use vk_arguments::passed::word_of;
use vk_kinds::CType;
use vk_lanes::LaneMask;
use vk_pointer_texts::ArrayHead;
use vk_types::Word;

/// The words of a call, with the types of its parameters, its number of lanes, and the arrays that its pointers point into.
#[derive(Clone, Copy)]
pub struct Passed<'a> {
    pub heads: &'a [ArrayHead<'a>],
    pub types: &'a [CType],
    pub lanes: usize,
    pub words: &'a [Word],
}

/// The least pair of active lanes that are not apart.
pub fn least_pair(call: &Passed<'_>, mask: &LaneMask) -> Option<(usize, usize)>
    requires parameters { length call.now.types.now < 2 ^ 32 }
    requires lanes { call.now.lanes ≤ 256 }
    requires mask { lane_count mask.now ≡ call.now.lanes }
    ensures { IsLeast call.now.lanes (active_meet call.now.types.now (arrays_of call.now.heads.now) (passed call.now.lanes call.now.words.now) (is_on mask.now)) result }
{
    for first in 0..call.lanes {
        if let Some(second) = partner(call, mask, first) {
            return Some((first, second));
        }
    }
    None
}

// The least lane behind an active one that is active and not apart from it.
fn partner(call: &Passed<'_>, mask: &LaneMask, first: usize) -> Option<usize>
    requires parameters { length call.now.types.now < 2 ^ 32 }
    requires lanes { call.now.lanes ≤ 256 }
    requires mask { lane_count mask.now ≡ call.now.lanes }
    requires first { first < call.now.lanes }
    ensures { IsNext (first + 1) call.now.lanes (active_meet call.now.types.now (arrays_of call.now.heads.now) (passed call.now.lanes call.now.words.now) (is_on mask.now) first) result }
{
    for second in first + 1..call.lanes {
        if active_meet(call, mask, first, second) {
            return Some(second);
        }
    }
    None
}

// Whether two lanes are active and not apart.
fn active_meet(call: &Passed<'_>, mask: &LaneMask, first: usize, second: usize) -> bool
    requires parameters { length call.now.types.now < 2 ^ 32 }
    requires lanes { call.now.lanes ≤ 256 }
    requires mask { lane_count mask.now ≡ call.now.lanes }
    requires first { first < call.now.lanes }
    requires second { second < call.now.lanes }
    ensures { result ≡ active_meet call.now.types.now (arrays_of call.now.heads.now) (passed call.now.lanes call.now.words.now) (is_on mask.now) first second }
{
    mask.get(first) && (mask.get(second) && lanes_meet(call, first, second))
}

// Whether two lanes are not apart.
fn lanes_meet(call: &Passed<'_>, first: usize, second: usize) -> bool
    requires parameters { length call.now.types.now < 2 ^ 32 }
    requires lanes { call.now.lanes ≤ 256 }
    requires first { first < call.now.lanes }
    requires second { second < call.now.lanes }
    ensures { result ≡ lanes_meet call.now.types.now (arrays_of call.now.heads.now) (passed call.now.lanes call.now.words.now) first second }
{
    for parameter in 0..call.types.len() {
        if is_met(call, reach_in(call, parameter, first), second) {
            return true;
        }
    }
    false
}

// Whether what is reached meets an argument of a lane.
fn is_met(call: &Passed<'_>, reached: Reach, lane: usize) -> bool
    requires parameters { length call.now.types.now < 2 ^ 32 }
    requires lanes { call.now.lanes ≤ 256 }
    requires lane { lane < call.now.lanes }
    ensures { result ≡ is_met call.now.types.now (arrays_of call.now.heads.now) (passed call.now.lanes call.now.words.now) reached lane }
{
    for parameter in 0..call.types.len() {
        if meet(reached, reach_in(call, parameter, lane)) {
            return true;
        }
    }
    false
}

// What a parameter's argument reaches in a lane.
fn reach_in(call: &Passed<'_>, parameter: usize, lane: usize) -> Reach
    requires parameters { length call.now.types.now < 2 ^ 32 }
    requires lanes { call.now.lanes ≤ 256 }
    requires parameter { parameter < length call.now.types.now }
    requires lane { lane < call.now.lanes }
    ensures { result ≡ reach call.now.types.now (arrays_of call.now.heads.now) (passed call.now.lanes call.now.words.now) parameter lane }
{
    let word = word_of(call.words, call.lanes, parameter, lane);
    reach_of(call.heads, call.types[parameter], word)
}
