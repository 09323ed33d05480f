// What a call from outside takes back: results and stops.

ghost use Rattle.std.specs.Prelude.{◌≡◌, ◌+◌, ◌<◌, ℕ, ◌&&◌, is_none, IfSome, None, length, slice_index_or};
ghost use Rattle.vk_lanes.specs.Kernels.{Writes};
ghost use Rattle.vk_lanes.specs.Masks.{is_on, lane_count};
ghost use Rattle.vk_lanes.specs.Inner.Blocks.{WritesOn};
ghost use Rattle.vk_object.specs.Machine.{word_in};
ghost use Rattle.vk_frames.specs.Frames.{IsFrame, lanes_of};
ghost use Rattle.vk_direct.specs.Given.{ends_on};

use vk_frames::Frame;
use vk_lanes::LaneMask;
use vk_types::{Stop, Word};

/// Writes the result of each lane that is on and has not stopped; the others keep what they held.
pub fn take_results(frame: &Frame<'_>, register: Option<u16>, mask: &LaneMask, results: &mut [Word])
    requires fits { IsFrame frame.now }
    requires register { IfSome register (λ r. r < frame.now.registers) }
    requires mask { lane_count mask.now ≡ frame.now.lanes }
    requires results { length results.old ≡ frame.now.lanes }
    ensures { Writes (ends_on (is_on mask.now) (lanes_of frame.now)) (λ j. word_in register (lanes_of frame.now j)) results.old results.new }
{
    for lane in 0..mask.len() {
        take_result(frame, register, mask, results, lane);
    }
}

// The same in one lane.
fn take_result(
    frame: &Frame<'_>,
    register: Option<u16>,
    mask: &LaneMask,
    results: &mut [Word],
    lane: usize,
)
    requires fits { IsFrame frame.now }
    requires register { IfSome register (λ r. r < frame.now.registers) }
    requires mask { lane_count mask.now ≡ frame.now.lanes }
    requires results { length results.old ≡ frame.now.lanes }
    requires lane { lane < frame.now.lanes }
    ensures { WritesOn lane (lane + 1) (ends_on (is_on mask.now) (lanes_of frame.now)) (λ j. word_in register (lanes_of frame.now j)) results.old results.new }
{
    if !ends_on(frame, mask, lane) {
        return;
    }
    results[lane] = result_in(frame, register, lane);
}

// Whether a lane is on and has not stopped.
fn ends_on(frame: &Frame<'_>, mask: &LaneMask, lane: usize) -> bool
    requires fits { IsFrame frame.now }
    requires mask { lane_count mask.now ≡ frame.now.lanes }
    requires lane { lane < frame.now.lanes }
    ensures { result ≡ ends_on (is_on mask.now) (lanes_of frame.now) lane }
{
    mask.get(lane) && frame.stop(lane).is_none()
}

// The word of the result's register in a lane.
fn result_in(frame: &Frame<'_>, register: Option<u16>, lane: usize) -> Word
    requires fits { IsFrame frame.now }
    requires register { IfSome register (λ r. r < frame.now.registers) }
    requires lane { lane < frame.now.lanes }
    ensures { result.0 ≡ word_in register (lanes_of frame.now lane) }
{
    match register {
        Some(register) => frame.word(register, lane),
        None => Word(0),
    }
}

/// Writes the stop of each lane, or that it has none.
pub fn take_stops(frame: &Frame<'_>, stops: &mut [Option<Stop>])
    requires fits { IsFrame frame.now }
    requires stops { length stops.old ≡ frame.now.lanes }
    ensures { (j : ℕ) → j < frame.now.lanes → slice_index_or stops.new j None ≡ (lanes_of frame.now j).stop }
{
    for lane in 0..frame.lanes {
        stops[lane] = frame.stop(lane);
    }
}
