// Loads, stores and prints, lane after lane.

ghost use Rattle.std.specs.Prelude.{◌≡◌, ◌<◌, ◌++◌, ℕ, cond, false, true, Result, IsTrue, IsErrOf, OnOk, codes};
ghost use Rattle.std.specs.Fmt.{signed_decimal};
ghost use Rattle.vk_code.specs.declared.instruction.Operation.TheVariants;
ghost use Rattle.vk_types.specs.declared.types.Ty.TheVariants.{I64};
ghost use Rattle.vk_types.specs.Numbers.{number_of};
ghost use Rattle.vk_object.specs.Lane.{acts, is_live, number_at, ty_at};
ghost use Rattle.vk_object.specs.Machine.{in_lane, put, sweep};
ghost use Rattle.vk_object.specs.Memory.{cell_of};
ghost use Rattle.vk_frames.specs.Frames.{FitsAs, lanes_of};
ghost use Rattle.vk_io.specs.Counts.{Rose};
ghost use Rattle.vk_io.specs.Sink.{Puts, Stays};
ghost use Rattle.vk_steps.specs.Locals.{live_as, with_pointer};
ghost use Rattle.vk_steps.specs.Places.{FitsPlace, IsGood, IsSound, IsTyped, entry, listing, regs, site};
ghost use Rattle.vk_access.specs.Accesses.{element_at, is_access, stored_cells, storing};
ghost use Rattle.vk_access.specs.Cells.{cells_in};
ghost use Rattle.vk_access.specs.Outer.{PutsLive, Runs, outer_of};
ghost use Rattle.vk_access.specs.Stores.{FitsStore, extents};

use crate::lines::print_line;
use crate::store::{Store, assign, load};
use vk_code::{Instr, Operation};
use vk_frames::Frame;
use vk_io::{Outside, Sink};
use vk_steps::Place;
use vk_steps::registers::{operand, settle, ty_at};
use vk_types::Stop;

/// Loads, stores or prints in each lane that is live, in ascending order.
pub fn access<O: Sink>(
    place: &Place<'_>,
    memory: &mut Store,
    out: &mut O,
    frame: &mut Frame<'_>,
    instr: Instr,
    operation: Operation,
) -> Result<(), Outside>
    requires sound { IsSound place.now }
    requires fits { FitsPlace place.now frame.old }
    requires store { FitsStore place.now.image.now memory.old }
    requires good { IsGood place.now instr operation }
    requires accesses { is_access operation ≡ true }
    ensures fits { FitsPlace place.now frame.new }
    ensures store { FitsStore place.now.image.now memory.new }
    ensures runs { Runs result (lanes_of frame.old) (lanes_of frame.new) (outer_of memory.old (O.state out.old)) (outer_of memory.new (O.state out.new))
        (sweep (entry place.now).lanes (λ j v. acts (extents place.now.image.now) (regs place.now) instr.m j operation v)) }
{
    for lane in 0..frame.lanes {
        access_in(place, memory, out, frame, instr, operation, lane)?;
    }
    Ok(())
}

// The same in one lane.
fn access_in<O: Sink>(
    place: &Place<'_>,
    memory: &mut Store,
    out: &mut O,
    frame: &mut Frame<'_>,
    instr: Instr,
    operation: Operation,
    lane: usize,
) -> Result<(), Outside>
    requires sound { IsSound place.now }
    requires fits { FitsPlace place.now frame.old }
    requires store { FitsStore place.now.image.now memory.old }
    requires good { IsGood place.now instr operation }
    requires accesses { is_access operation ≡ true }
    requires lane { lane < (entry place.now).lanes }
    ensures fits { FitsPlace place.now frame.new }
    ensures store { FitsStore place.now.image.now memory.new }
    ensures runs { Runs result (lanes_of frame.old) (lanes_of frame.new) (outer_of memory.old (O.state out.old)) (outer_of memory.new (O.state out.new))
        (in_lane (λ j v. acts (extents place.now.image.now) (regs place.now) instr.m j operation v) lane) }
{
    match operation {
        Operation::Load { d, a } => {
            load_in(place, memory, frame, instr.m, d, a, lane);
            Ok(())
        }
        Operation::Store { a, b } => {
            store_in(place, memory, frame, instr.m, a, b, lane);
            Ok(())
        }
        Operation::Print { a } => print_in(place, out, frame, instr.m, a, lane),
        _ => unreachable!(),
    }
}

// `d :=` the element at `a`, if the lane is live.
fn load_in(
    place: &Place<'_>,
    memory: &Store,
    frame: &mut Frame<'_>,
    m: u16,
    d: u16,
    a: u16,
    lane: usize,
)
    requires fits { FitsPlace place.now frame.old }
    requires store { FitsStore place.now.image.now memory.now }
    requires mask { m < (listing place.now).routine.masks }
    requires typed { IsTyped place.now (TheVariants.Load d a) }
    requires lane { lane < (entry place.now).lanes }
    ensures fits { FitsAs frame.old frame.new }
    ensures lanes { lanes_of frame.new ≡ put (lanes_of frame.old) lane (live_as m (lanes_of frame.old lane) (with_pointer (lanes_of frame.old lane) d
        (element_at (cells_in memory.now.cells.items) (ty_at (regs place.now) d) (cell_of (extents place.now.image.now) ((lanes_of frame.old lane).reg a))))) }
{
    let pointer = frame.word(a, lane);
    match load(place.image, memory, pointer, ty_at(place.code, d)) {
        Some(word) => settle(frame, m, d, lane, Ok(word)),
        None => settle(frame, m, d, lane, Err(Stop::Bounds)),
    }
}

// The element at `a := b`, if the lane is live.
fn store_in(
    place: &Place<'_>,
    memory: &mut Store,
    frame: &mut Frame<'_>,
    m: u16,
    a: u16,
    b: u16,
    lane: usize,
)
    requires fits { FitsPlace place.now frame.old }
    requires store { FitsStore place.now.image.now memory.old }
    requires mask { m < (listing place.now).routine.masks }
    requires typed { IsTyped place.now (TheVariants.Store a b) }
    requires lane { lane < (entry place.now).lanes }
    ensures fits { FitsAs frame.old frame.new }
    ensures store { FitsStore place.now.image.now memory.new }
    ensures counts { memory.new.counts ≡ memory.old.counts }
    ensures lanes { lanes_of frame.new ≡ put (lanes_of frame.old) lane (live_as m (lanes_of frame.old lane) (storing (lanes_of frame.old lane) (cell_of (extents place.now.image.now) ((lanes_of frame.old lane).reg a)))) }
    ensures cells { cells_in memory.new.cells.items ≡ cond (is_live m (lanes_of frame.old lane)) (stored_cells (cells_in memory.old.cells.items) (number_at (regs place.now) (lanes_of frame.old lane) b) (cell_of (extents place.now.image.now) ((lanes_of frame.old lane).reg a))) (cells_in memory.old.cells.items) }
{
    let is_live = frame.is_live(m, lane);
    if !is_live {
        return;
    }
    let from = ty_at(place.code, b);
    let word = operand(frame, place.code, from, b, lane);
    if !assign(place.image, memory, frame.word(a, lane), from, word) {
        frame.set_stop(lane, Stop::Bounds);
    }
}

// Prints `a`, if the lane is live.
fn print_in<O: Sink>(
    place: &Place<'_>,
    out: &mut O,
    frame: &Frame<'_>,
    m: u16,
    a: u16,
    lane: usize,
) -> Result<(), Outside>
    requires fits { FitsPlace place.now frame.now }
    requires mask { m < (listing place.now).routine.masks }
    requires typed { IsTyped place.now (TheVariants.Print a) }
    requires lane { lane < (entry place.now).lanes }
    ensures put { IsTrue (O.state out.old).tells → PutsLive (is_live m (lanes_of frame.now lane)) (O.state out.old).bytes (O.state out.new).bytes result (number_of I64 ((lanes_of frame.now lane).reg a)) }
    ensures failed { IsErrOf result Outside.Failed → Rose (O.state out.old).faults (O.state out.new).faults }
    ensures memory { IsTrue (O.state out.old).is_lean → IsErrOf result Outside.Memory → ⊥ }
    ensures stays { Stays (O.state out.old) (O.state out.new) }
{
    if !frame.is_live(m, lane) {
        return Ok(());
    }
    print_line(out, frame.word(a, lane))
}
