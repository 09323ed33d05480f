// Operations on registers and masks, as parts of a run.

ghost use Rattle.std.specs.Prelude.{◌≡◌, ◌+◌, true};
ghost use Rattle.vk_object.specs.Lane.{acts};
ghost use Rattle.vk_object.specs.Machine.{sweep};
ghost use Rattle.vk_frames.specs.Frames.{lanes_of};
ghost use Rattle.vk_steps.specs.Locals.{is_local};
ghost use Rattle.vk_steps.specs.Places.{FitsPlace, IsGood, IsSound, entry, regs};
ghost use Rattle.vk_access.specs.Outer.{Goes, outer_of};
ghost use Rattle.vk_access.specs.Stores.{extents};
ghost use Rattle.vk_perform.specs.Performed.{size_of};

use vk_access::Store;
use vk_calls::fetch::Fetched;
use vk_code::{Instr, Operation};
use vk_frames::Frame;
use vk_io::Sink;
use vk_steps::Place;
use vk_steps::rows::operate;

/// An operation on registers and masks in each lane: the memory and the sink stay as they are.
pub fn change<O: Sink>(
    place: &Place<'_>,
    memory: &Store,
    out: &O,
    frame: &mut Frame<'_>,
    instr: Instr,
    operation: Operation,
)
    requires sound { IsSound place.now }
    requires fits { FitsPlace place.now frame.old }
    requires good { IsGood place.now instr operation }
    requires local { is_local operation ≡ true }
    ensures fits { FitsPlace place.now frame.new }
    ensures goes { Goes (lanes_of frame.old) (lanes_of frame.new) (outer_of memory.now (O.state out.now)) (outer_of memory.now (O.state out.now))
        (sweep (entry place.now).lanes (λ j v. acts (extents place.now.image.now) (regs place.now) instr.m j operation v)) }
{
    operate(place, frame, instr, operation);
}

/// How many instructions an instruction and its block are.
pub fn length_of(fetched: Fetched) -> usize
    ensures { result ≡ size_of fetched + 1 }
{
    match fetched {
        Fetched::Block(_, size) => size as usize + 1,
        Fetched::Calls(..) => 1,
        Fetched::Simd(..) => 1,
        Fetched::Accesses(..) => 1,
        Fetched::Locals(..) => 1,
    }
}
