// A call of an entry from outside.

ghost use Rattle.std.specs.Prelude.{◌≡◌, ◌+◌, ◌<◌, ◌≤◌, ℕ, IsOk, None, Some, length, slice_index, slice_index_or};
ghost use Rattle.vk_lanes.specs.Kernels.{Writes};
ghost use Rattle.vk_lanes.specs.Masks.{is_on, lane_count};
ghost use Rattle.vk_object.specs.Images.{frame_cells};
ghost use Rattle.vk_steps.specs.Places.{FitsPlace, called_cells, entry, listing, tables};
ghost use Rattle.vk_access.specs.Cells.{cells_in};
ghost use Rattle.vk_object.specs.Memory.{calls_of};
ghost use Rattle.vk_access.specs.Outer.{outer_of, told};
ghost use Rattle.vk_access.specs.Stores.{FitsStore};
ghost use Rattle.vk_direct.specs.Calls.{IsEntry, entered};
ghost use Rattle.vk_direct.specs.Given.{Calls, gives_on};
ghost use Rattle.vk_perform.specs.Ready.{IsReady};

use vk_access::Store;
use vk_direct::call::open;
use vk_direct::taken::{take_results, take_stops};
use vk_direct::{DirectCall, Discard};
use vk_entries::opening::frame_size;
use vk_frames::Frame;
use vk_io::{Outside, Sink};
use vk_perform::run::enter;
use vk_types::{Stop, Word};

/// Calls an entry from outside. Where it ends its results and stops are written: a result in each lane that is on and does not stop,
/// and for each lane its stop or that it has none.
pub fn call_entry<O: Sink>(
    call: &DirectCall<'_, '_, '_>,
    memory: &mut Store,
    frames: &mut [Word],
    out: &mut O,
    results: &mut [Word],
    stops: &mut [Option<Stop>],
) -> Result<(), Outside>
    requires entry { IsEntry call.now }
    requires store { FitsStore call.now.place.image.now memory.old }
    requires room { frame_cells (entry call.now.place) (Some (listing call.now.place)) + called_cells (tables call.now.place) call.now.place.depth (entry call.now.place) ≤ length frames.old }
    requires results { length results.old ≡ lane_count call.now.mask.now }
    requires stops { length stops.old ≡ lane_count call.now.mask.now }
    ensures store { FitsStore call.now.place.image.now memory.new }
    ensures calls { Calls result (entered call.now (cells_in memory.old.cells.items)) (outer_of memory.old (O.state out.old)) (outer_of memory.new (O.state out.new)) }
    ensures results { IsOk result → Writes (gives_on (is_on call.now.mask.now) (entered call.now (cells_in memory.old.cells.items))) (entered call.now (cells_in memory.old.cells.items)).value results.old results.new }
    ensures stops { IsOk result → (j : ℕ) → j < lane_count call.now.mask.now → slice_index_or stops.new j None ≡ (entered call.now (cells_in memory.old.cells.items)).stop j }
{
    let (words, rest) = frames.split_at_mut(frame_size(&call.place));
    let mut frame = open(call, words);
    hand_over(call, memory, &frame, rest);
    let ran = enter(&call.place, memory, out, &mut frame, rest);
    take_results(&frame, call.place.code.result, call.mask, results);
    take_stops(&frame, stops);
    ran
}

// The entry has what its code needs.
fn hand_over(call: &DirectCall<'_, '_, '_>, memory: &Store, frame: &Frame<'_>, rest: &[Word])
    requires entry { IsEntry call.now }
    requires fits { FitsPlace call.now.place frame.now }
    requires store { FitsStore call.now.place.image.now memory.now }
    requires room { called_cells (tables call.now.place) call.now.place.depth (entry call.now.place) ≤ length rest.now }
    ensures { IsReady call.now.place frame.now memory.now rest.now }
{}

/// The same, where what the entry prints goes nowhere: this never fails.
pub fn call_silently(
    call: &DirectCall<'_, '_, '_>,
    memory: &mut Store,
    frames: &mut [Word],
    results: &mut [Word],
    stops: &mut [Option<Stop>],
)
    requires entry { IsEntry call.now }
    requires store { FitsStore call.now.place.image.now memory.old }
    requires room { frame_cells (entry call.now.place) (Some (listing call.now.place)) + called_cells (tables call.now.place) call.now.place.depth (entry call.now.place) ≤ length frames.old }
    requires results { length results.old ≡ lane_count call.now.mask.now }
    requires stops { length stops.old ≡ lane_count call.now.mask.now }
    ensures store { FitsStore call.now.place.image.now memory.new }
    ensures cells { cells_in memory.new.cells.items ≡ (entered call.now (cells_in memory.old.cells.items)).mem.cells }
    ensures counts { (e : ℕ) → told (slice_index memory.new.counts.items e) ≡ told (told (slice_index memory.old.counts.items e) + calls_of e (entered call.now (cells_in memory.old.cells.items)).mem.log) }
    ensures results { Writes (gives_on (is_on call.now.mask.now) (entered call.now (cells_in memory.old.cells.items))) (entered call.now (cells_in memory.old.cells.items)).value results.old results.new }
    ensures stops { (j : ℕ) → j < lane_count call.now.mask.now → slice_index_or stops.new j None ≡ (entered call.now (cells_in memory.old.cells.items)).stop j }
{
    let mut out = Discard::new();
    let ran = call_entry(call, memory, frames, &mut out, results, stops);
    is_done(ran);
}

// A call that did not fail.
fn is_done(ran: Result<(), Outside>)
    requires { IsOk ran }
{
    let Ok(()) = ran else {
        unreachable!();
    };
}
