// The first frames of calls.

ghost use Rattle.std.specs.Prelude.{◌≡◌, ◌+◌, ◌*◌, ◌<◌, ◌≤◌, ◌==◌, nat_lt, true};
ghost use Rattle.vk_code.specs.Listing.{call_site_of, simd_site_of};
ghost use Rattle.vk_object.specs.Lane.{is_live, number_at};
ghost use Rattle.vk_object.specs.Machine.{arg_reg, body_args, first_lane, iterations, lane_args};
ghost use Rattle.vk_frames.specs.Frames.{lanes_of};
ghost use Rattle.vk_frames.specs.Rows.{no_lanes};
ghost use Rattle.vk_steps.specs.Places.{FitsPlace, entry, listing, regs, site};
ghost use Rattle.vk_args.specs.Callees.{IsCallable, IsLoopOf};

use crate::bodies::BodyArgs;
use crate::calls::{LaneArgs, OneLane};
use vk_calls::found::{Body, Found};
use vk_frames::Frame;
use vk_passing::arguments::fill;
use vk_steps::Place;
use vk_types::laws::{conversion, ranges};

/// Fills the first frame of a call for all lanes, of which `first` is the first that is live in mask `m`.
pub fn pass_all(
    place: &Place<'_>,
    found: &Found<'_>,
    frame: &Frame<'_>,
    m: u16,
    first: usize,
    callee: &mut Frame<'_>,
)
    requires found { IsCallable place.now found.now }
    requires same { (entry found.now.place).lanes ≡ (entry place.now).lanes }
    requires fits { FitsPlace place.now frame.now }
    requires callee { FitsPlace found.now.place callee.old }
    requires empty { lanes_of callee.old ≡ no_lanes }
    requires mask { m < (listing place.now).routine.masks }
    requires first { first < (entry place.now).lanes }
    ensures fits { FitsPlace found.now.place callee.new }
    ensures lanes { lanes_of callee.new ≡ first_lane (entry found.now.place).lanes (listing found.now.place).routine.params
        (lane_args (site place.now) (call_site_of found.now.slot.now) (entry found.now.place) (lanes_of frame.now) first) (λ j. is_live m (lanes_of frame.now j)) }
{
    let params = found.place.code.params;
    let args = LaneArgs {
        frame,
        code: place.code,
        slot: found.slot,
        entry: found.place.entry,
        params,
        mask: m,
        first,
    };
    fill(callee, &args, params);
}

/// Fills the first frame of a call for one lane.
pub fn pass_one(
    place: &Place<'_>,
    found: &Found<'_>,
    frame: &Frame<'_>,
    lane: usize,
    callee: &mut Frame<'_>,
)
    requires found { IsCallable place.now found.now }
    requires fits { FitsPlace place.now frame.now }
    requires callee { FitsPlace found.now.place callee.old }
    requires empty { lanes_of callee.old ≡ no_lanes }
    requires lane { lane < (entry place.now).lanes }
    ensures fits { FitsPlace found.now.place callee.new }
    ensures lanes { lanes_of callee.new ≡ first_lane (entry found.now.place).lanes (listing found.now.place).routine.params
        (λ p i. (lanes_of frame.now lane).reg (arg_reg (call_site_of found.now.slot.now) p)) (λ i. i == 0) }
{
    let params = found.place.code.params;
    let args = OneLane {
        frame,
        slot: found.slot,
        params,
        lanes: found.place.entry.lanes,
        lane,
    };
    fill(callee, &args, params);
}

/// Fills the first frame of call number `turn` of the body of a simd loop, from iteration `base` on.
pub fn pass_body(
    place: &Place<'_>,
    body: &Body<'_>,
    frame: &Frame<'_>,
    base: u32,
    turn: u32,
    callee: &mut Frame<'_>,
)
    requires body { IsLoopOf place.now body.now }
    requires some { 0 < (entry place.now).lanes }
    requires fits { FitsPlace place.now frame.now }
    requires callee { FitsPlace body.now.place callee.old }
    requires empty { lanes_of callee.old ≡ no_lanes }
    requires asked { base + turn * (entry body.now.place).lanes + (entry body.now.place).lanes ≤ iterations (number_at (regs place.now) (lanes_of frame.now 0) (simd_site_of body.now.site.now).low) (number_at (regs place.now) (lanes_of frame.now 0) (simd_site_of body.now.site.now).high) }
    ensures fits { FitsPlace body.now.place callee.new }
    ensures lanes { lanes_of callee.new ≡ first_lane (entry body.now.place).lanes (listing body.now.place).routine.params
        (body_args (site place.now) (simd_site_of body.now.site.now) (lanes_of frame.now 0) (entry body.now.place).lanes base turn) (λ i. nat_lt i (entry body.now.place).lanes) }
{
    conversion();
    ranges();
    let params = body.place.code.params;
    let args = BodyArgs {
        frame,
        code: place.code,
        site: body.site,
        params,
        lanes: body.place.entry.lanes,
        base,
        turn,
    };
    fill(callee, &args, params);
}
