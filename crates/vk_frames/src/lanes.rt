// What the lanes of a frame are, together.

ghost use Rattle.std.specs.Prelude.{◌≡◌, ◌<◌, ◌+◌};
ghost use Rattle.vk_object.specs.Lane.{out_of_turns};
ghost use Rattle.vk_object.specs.Machine.{any_live, first_live, lowest_stop, put};
ghost use Rattle.vk_frames.specs.Frames.{FitsAs, IsFrame, lanes_of};

use crate::frame::Frame;
use vk_types::Stop;

/// Whether some lane is live in a mask.
pub fn any_live(frame: &Frame<'_>, m: u16) -> bool
    requires fits { IsFrame frame.now }
    requires mask { m < frame.now.masks }
    ensures { result ≡ any_live frame.now.lanes m (lanes_of frame.now) }
{
    for lane in 0..frame.lanes {
        if frame.is_live(m, lane) {
            return true;
        }
    }
    false
}

/// The first lane that is live in a mask, else the number of lanes.
#[tactic(auto, using(crate::proofs::Live::first_is, crate::proofs::Live::none_first))]
pub fn first_live(frame: &Frame<'_>, m: u16) -> usize
    requires fits { IsFrame frame.now }
    requires mask { m < frame.now.masks }
    ensures { result ≡ first_live frame.now.lanes m (lanes_of frame.now) }
{
    for lane in 0..frame.lanes {
        if frame.is_live(m, lane) {
            return lane;
        }
    }
    frame.lanes
}

/// The stop of the lowest lane that stopped.
#[tactic(auto, using(crate::proofs::Live::lowest_next))]
pub fn lowest_stop(frame: &Frame<'_>) -> Option<Stop>
    requires fits { IsFrame frame.now }
    ensures { result ≡ lowest_stop frame.now.lanes (λ j. (lanes_of frame.now j).stop) }
{
    for lane in 0..frame.lanes {
        if let Some(stop) = frame.stop(lane) {
            return Some(stop);
        }
    }
    None
}

/// Stops each lane that is live in a mask: it made all its turns.
pub fn stop_turns(frame: &mut Frame<'_>, m: u16)
    requires fits { IsFrame frame.old }
    requires mask { m < frame.old.masks }
    ensures fits { FitsAs frame.old frame.new }
    ensures lanes { lanes_of frame.new ≡ λ j. out_of_turns m (lanes_of frame.old j) }
{
    for lane in 0..frame.lanes {
        stop_turns_in(frame, m, lane);
    }
}

// Stops a lane if it is live in a mask.
fn stop_turns_in(frame: &mut Frame<'_>, m: u16, lane: usize)
    requires fits { IsFrame frame.old }
    requires mask { m < frame.old.masks }
    requires lane { lane < frame.old.lanes }
    ensures fits { FitsAs frame.old frame.new }
    ensures lanes { lanes_of frame.new ≡ put (lanes_of frame.old) lane (out_of_turns m (lanes_of frame.old lane)) }
{
    if !frame.is_live(m, lane) {
        return;
    }
    frame.set_stop(lane, Stop::Turns);
}
