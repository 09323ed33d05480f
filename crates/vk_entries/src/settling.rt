// The lane of a simd loop after its calls.

ghost use Rattle.std.specs.Prelude.{◌≡◌, ◌<◌, nat_lt, Option};
ghost use Rattle.vk_object.specs.Machine.{put};
ghost use Rattle.vk_frames.specs.Frames.{lanes_of};
ghost use Rattle.vk_steps.specs.Places.{FitsPlace, entry};
ghost use Rattle.vk_entries.specs.Settled.{settled};

use vk_frames::Frame;
use vk_steps::Place;
use vk_types::Stop;

/// Lane 0 stops where a call stopped, or where more iterations were asked for than turns may be made.
pub fn settle(place: &Place<'_>, frame: &mut Frame<'_>, asked: u64, stop: Option<Stop>)
    requires some { 0 < (entry place.now).lanes }
    requires fits { FitsPlace place.now frame.old }
    ensures fits { FitsPlace place.now frame.new }
    ensures lanes { lanes_of frame.new ≡ put (lanes_of frame.old) 0 (settled asked place.now.turns stop (lanes_of frame.old 0)) }
{
    if let Some(stop) = stop {
        frame.set_stop(0, stop);
        return;
    }
    if asked > u64::from(place.turns) {
        frame.set_stop(0, Stop::Turns);
    }
}
