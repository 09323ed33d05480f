// Lanes of a frame as masks of lanes, and rows of masks that are written whole.

ghost use Rattle.std.specs.Prelude.{◌≡◌, ℕ, ◌*◌, ◌<◌, ◌&&◌, ◌==◌, cond, not};
ghost use Rattle.vk_lanes.specs.Masks.{is_on, lane_count};
ghost use Rattle.vk_object.specs.Lane.{is_live, with_mask, with_stop};
ghost use Rattle.vk_object.specs.Machine.{put};
ghost use Rattle.vk_frames.specs.Each.{each};
ghost use Rattle.vk_frames.specs.Frames.{FitsAs, IsFrame, lanes_of};
ghost use Rattle.vk_frames.specs.Rows.{place_of};

use crate::frame::Frame;
use vk_lanes::{LaneMask, mask_of, rows_fill};
use vk_types::{Stop, Word};

/// The lanes that are on in a mask and have not stopped.
pub fn live_lanes(frame: &Frame<'_>, m: u16) -> LaneMask
    requires fits { IsFrame frame.now }
    requires mask { m < frame.now.masks }
    ensures len { lane_count result ≡ frame.now.lanes }
    ensures lanes { (j : ℕ) → is_on result j ≡ is_live m (lanes_of frame.now j) }
{
    let first = frame.start(frame.registers + usize::from(m));
    let mut live = LaneMask::new(frame.lanes);
    mask_of(
        &frame.running,
        &frame.words[first..first + frame.lanes],
        &mut live,
    );
    live
}

/// The lanes that are on in a mask.
pub fn on_lanes(frame: &Frame<'_>, m: u16) -> LaneMask
    requires fits { IsFrame frame.now }
    requires mask { m < frame.now.masks }
    ensures len { lane_count result ≡ frame.now.lanes }
    ensures lanes { (j : ℕ) → is_on result j ≡ (lanes_of frame.now j).on m }
{
    let first = frame.start(frame.registers + usize::from(m));
    let mut on = LaneMask::new(frame.lanes);
    mask_of(
        &LaneMask::all(frame.lanes),
        &frame.words[first..first + frame.lanes],
        &mut on,
    );
    on
}

/// Those of these lanes in which a register is not 0.
pub fn nonzero_lanes(frame: &Frame<'_>, lanes: &LaneMask, register: u16) -> LaneMask
    requires fits { IsFrame frame.now }
    requires lanes { lane_count lanes.now ≡ frame.now.lanes }
    requires register { register < frame.now.registers }
    ensures len { lane_count result ≡ frame.now.lanes }
    ensures lanes { (j : ℕ) → is_on result j ≡ (is_on lanes.now j && not ((lanes_of frame.now j).reg register == 0)) }
{
    let first = frame.start(usize::from(register));
    let mut on = LaneMask::new(frame.lanes);
    mask_of(lanes, &frame.words[first..first + frame.lanes], &mut on);
    on
}

/// Sets a mask in each lane to whether it is one of these.
pub fn set_mask(frame: &mut Frame<'_>, mask: u16, on: &LaneMask)
    requires fits { IsFrame frame.old }
    requires on { lane_count on.now ≡ frame.old.lanes }
    requires mask { mask < frame.old.masks }
    ensures fits { FitsAs frame.old frame.new }
    ensures lanes { lanes_of frame.new ≡ each frame.old.lanes (λ j l. with_mask l mask (is_on on.now j)) (lanes_of frame.old) }
{
    let row = frame.registers + usize::from(mask);
    let first = frame.start(row);
    let all = LaneMask::all(frame.lanes);
    rows_fill(&all, frame.words, first, Word(0));
    rows_fill(on, frame.words, first, Word(1));
}

/// Stops each of these lanes.
pub fn stop_lanes(frame: &mut Frame<'_>, lanes: &LaneMask, stop: Stop)
    requires fits { IsFrame frame.old }
    requires lanes { lane_count lanes.now ≡ frame.old.lanes }
    ensures fits { FitsAs frame.old frame.new }
    ensures lanes { lanes_of frame.new ≡ each frame.old.lanes (λ j l. cond (is_on lanes.now j) (with_stop l stop) l) (lanes_of frame.old) }
{
    for lane in 0..frame.lanes {
        stop_lane(frame, lanes, stop, lane);
    }
}

// Stops a lane if it is one of these.
fn stop_lane(frame: &mut Frame<'_>, lanes: &LaneMask, stop: Stop, lane: usize)
    requires fits { IsFrame frame.old }
    requires lanes { lane_count lanes.now ≡ frame.old.lanes }
    requires lane { lane < frame.old.lanes }
    ensures fits { FitsAs frame.old frame.new }
    ensures lanes { lanes_of frame.new ≡ put (lanes_of frame.old) lane (cond (is_on lanes.now lane) (with_stop (lanes_of frame.old lane) stop) (lanes_of frame.old lane)) }
{
    if !lanes.get(lane) {
        return;
    }
    frame.set_stop(lane, stop);
}
