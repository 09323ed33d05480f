// Runs the code of an entry.

ghost use Rattle.std.specs.Prelude.{◌≡◌, ◌+◌, ◌*◌, ◌<◌, ◌≤◌, drop, length, min, zero, Result};
ghost use Rattle.vk_code.specs.declared.instruction.Operation.TheVariants;
ghost use Rattle.vk_code.specs.Listing.{call_site_of, simd_site_of};
ghost use Rattle.vk_object.specs.Machine.{Ran, again, all_calls, guard_holds, iterations, body_args, call_all, call_one, calls_in_turn, calls_target, enters, in_lane, run, runs_entry, runs_simd, simd_of, sweep, target_of};
ghost use Rattle.vk_object.specs.Lane.{number_at};
ghost use Rattle.vk_frames.specs.Frames.{lanes_of};
ghost use Rattle.vk_steps.specs.Places.{FitsPlace, IsSound, entry, listing, regs, site};
ghost use Rattle.vk_access.specs.Outer.{Runs, RunsCalls, outer_of};
ghost use Rattle.vk_access.specs.Stores.{FitsStore};
ghost use Rattle.vk_calls.specs.Fetched.{IsFetched, IsPart};
ghost use Rattle.vk_entries.specs.Callees.{IsCall, IsLoop, IsTurn};
ghost use Rattle.vk_perform.specs.Performed.{performed};
ghost use Rattle.vk_perform.specs.Ready.{IsReady, Keeps};

use crate::handing::{hand_back, hand_over};
use crate::locals::{change, length_of};
use vk_access::Store;
use vk_access::accesses::access;
use vk_access::store::count;
use vk_args::bounds::{guard_holds, iterations, least};
use vk_args::pass::{pass_all, pass_body, pass_one};
use vk_calls::fetch::{Fetched, fetch};
use vk_calls::found::{Body, Found, FoundSimd};
use vk_entries::callees::{find_call, find_loop};
use vk_entries::opening::{frame_of, frame_size};
use vk_entries::settling::settle;
use vk_frames::Frame;
use vk_frames::lanes::{any_live, first_live, lowest_stop, stop_turns};
use vk_io::{Outside, Sink};
use vk_passing::results::{take, take_all};
use vk_steps::Place;
use vk_types::{Stop, Word};

/// Runs the code of an entry whose first frame is filled, and counts the call; `cells` have room for the frames of all that it calls.
/// An `Err` is the sink's, which had then taken a front of what the run prints.
#[cycle(run)]
pub fn enter<O: Sink>(
    place: &Place<'_>,
    memory: &mut Store,
    out: &mut O,
    frame: &mut Frame<'_>,
    cells: &mut [Word],
) -> Result<(), Outside>
    requires ready { IsReady place.now frame.old memory.old cells.old }
    ensures keeps { Keeps place.now frame.new memory.new }
    ensures runs { Runs result (lanes_of frame.old) (lanes_of frame.new) (outer_of memory.old (O.state out.old)) (outer_of memory.new (O.state out.new))
        (runs_entry place.now.number (site place.now)) }
{
    count(memory, place.number);
    run_block(place, memory, out, frame, cells, 0, place.code.instrs.len())
}

/// Runs `count` instructions from `from` on.
#[cycle(run)]
fn run_block<O: Sink>(
    place: &Place<'_>,
    memory: &mut Store,
    out: &mut O,
    frame: &mut Frame<'_>,
    cells: &mut [Word],
    from: usize,
    count: usize,
) -> Result<(), Outside>
    requires ready { IsReady place.now frame.old memory.old cells.old }
    requires part { IsPart place.now from count }
    ensures keeps { Keeps place.now frame.new memory.new }
    ensures runs { Runs result (lanes_of frame.old) (lanes_of frame.new) (outer_of memory.old (O.state out.old)) (outer_of memory.new (O.state out.new))
        (run (site place.now) (drop from (listing place.now).routine.instrs) zero count) }
{
    let mut at = from;
    let mut left = count;
    while left > 0 {
        let fetched = fetch(place, at, left);
        let length = length_of(fetched);
        perform(place, memory, out, frame, cells, at, left, fetched)?;
        at += length;
        left -= length;
    }
    Ok(())
}

/// Performs one instruction, with its block if it has one.
#[cycle(run)]
fn perform<O: Sink>(
    place: &Place<'_>,
    memory: &mut Store,
    out: &mut O,
    frame: &mut Frame<'_>,
    cells: &mut [Word],
    at: usize,
    left: usize,
    fetched: Fetched,
) -> Result<(), Outside>
    requires ready { IsReady place.now frame.old memory.old cells.old }
    requires inside { at + left ≤ length (listing place.now).routine.instrs }
    requires some { 0 < left }
    requires fetched { IsFetched place.now at left fetched }
    ensures keeps { Keeps place.now frame.new memory.new }
    ensures runs { Runs result (lanes_of frame.old) (lanes_of frame.new) (outer_of memory.old (O.state out.old)) (outer_of memory.new (O.state out.new))
        (performed place.now at fetched) }
{
    match fetched {
        Fetched::Block(m, size) => repeat_block(
            place,
            memory,
            out,
            frame,
            cells,
            m,
            at + 1,
            size as usize,
        ),
        Fetched::Calls(instr, slot) => call_slot(place, memory, out, frame, cells, instr.m, slot),
        Fetched::Simd(instr, number) => run_simd(place, memory, out, frame, cells, instr.m, number),
        Fetched::Accesses(instr, operation) => access(place, memory, out, frame, instr, operation),
        Fetched::Locals(instr, operation) => {
            change(place, memory, out, frame, instr, operation);
            Ok(())
        }
    }
}

/// Runs a block again and again, while a lane is live in a mask.
#[cycle(run)]
fn repeat_block<O: Sink>(
    place: &Place<'_>,
    memory: &mut Store,
    out: &mut O,
    frame: &mut Frame<'_>,
    cells: &mut [Word],
    m: u16,
    from: usize,
    count: usize,
) -> Result<(), Outside>
    requires ready { IsReady place.now frame.old memory.old cells.old }
    requires part { IsPart place.now from count }
    requires mask { m < (listing place.now).routine.masks }
    ensures keeps { Keeps place.now frame.new memory.new }
    ensures runs { Runs result (lanes_of frame.old) (lanes_of frame.new) (outer_of memory.old (O.state out.old)) (outer_of memory.new (O.state out.new))
        (again (entry place.now).lanes m (λ v. run (site place.now) (drop from (listing place.now).routine.instrs) zero count v) place.now.turns) }
{
    for _ in 0..place.turns {
        if !any_live(frame, m) {
            return Ok(());
        }
        run_block(place, memory, out, frame, cells, from, count)?;
    }
    if any_live(frame, m) {
        stop_turns(frame, m);
    }
    Ok(())
}

/// The call of a slot.
#[cycle(run)]
fn call_slot<O: Sink>(
    place: &Place<'_>,
    memory: &mut Store,
    out: &mut O,
    frame: &mut Frame<'_>,
    cells: &mut [Word],
    m: u16,
    slot: u32,
) -> Result<(), Outside>
    requires ready { IsReady place.now frame.old memory.old cells.old }
    requires mask { m < (listing place.now).routine.masks }
    requires slot { slot < length (listing place.now).routine.slots }
    ensures keeps { Keeps place.now frame.new memory.new }
    ensures runs { Runs result (lanes_of frame.old) (lanes_of frame.new) (outer_of memory.old (O.state out.old)) (outer_of memory.new (O.state out.new))
        (calls_target (site place.now) m (target_of (site place.now) slot)) }
{
    let found = find_call(place, slot);
    if found.place.entry.lanes == 1 {
        call_each(place, memory, out, frame, cells, m, &found, slot)
    } else {
        call(place, memory, out, frame, cells, m, &found, slot)
    }
}

/// A call for all lanes at once.
#[cycle(run)]
fn call<O: Sink>(
    place: &Place<'_>,
    memory: &mut Store,
    out: &mut O,
    frame: &mut Frame<'_>,
    cells: &mut [Word],
    m: u16,
    found: &Found<'_>,
    slot: u32,
) -> Result<(), Outside>
    requires ready { IsReady place.now frame.old memory.old cells.old }
    requires mask { m < (listing place.now).routine.masks }
    requires found { IsCall place.now slot found.now }
    requires same { (entry found.now.place).lanes ≡ (entry place.now).lanes }
    ensures keeps { Keeps place.now frame.new memory.new }
    ensures runs { Runs result (lanes_of frame.old) (lanes_of frame.new) (outer_of memory.old (O.state out.old)) (outer_of memory.new (O.state out.new))
        (call_all (site place.now) m (call_site_of found.now.slot.now) (entry found.now.place) (enters found.now.place.number (site found.now.place))) }
{
    if !any_live(frame, m) {
        return Ok(());
    }
    let first = first_live(frame, m);
    let inner = &found.place;
    let (words, rest) = cells.split_at_mut(frame_size(inner));
    let mut callee = frame_of(inner, words);
    pass_all(place, found, frame, m, first, &mut callee);
    hand_over(place, inner, memory, &callee, rest);
    enter(inner, memory, out, &mut callee, rest)?;
    hand_back(place, inner, memory);
    take_all(frame, &callee, m, found.slot.result, inner.code.result);
    Ok(())
}

/// A call of an entry of one lane, for each lane that is live.
#[cycle(run)]
fn call_each<O: Sink>(
    place: &Place<'_>,
    memory: &mut Store,
    out: &mut O,
    frame: &mut Frame<'_>,
    cells: &mut [Word],
    m: u16,
    found: &Found<'_>,
    slot: u32,
) -> Result<(), Outside>
    requires ready { IsReady place.now frame.old memory.old cells.old }
    requires mask { m < (listing place.now).routine.masks }
    requires found { IsCall place.now slot found.now }
    ensures keeps { Keeps place.now frame.new memory.new }
    ensures runs { Runs result (lanes_of frame.old) (lanes_of frame.new) (outer_of memory.old (O.state out.old)) (outer_of memory.new (O.state out.new))
        (sweep (entry place.now).lanes (call_one m (call_site_of found.now.slot.now) (enters found.now.place.number (site found.now.place)))) }
{
    for lane in 0..frame.lanes {
        call_one(place, memory, out, frame, cells, m, found, slot, lane)?;
    }
    Ok(())
}

/// A call of an entry of one lane, for a lane if it is live.
#[cycle(run)]
fn call_one<O: Sink>(
    place: &Place<'_>,
    memory: &mut Store,
    out: &mut O,
    frame: &mut Frame<'_>,
    cells: &mut [Word],
    m: u16,
    found: &Found<'_>,
    slot: u32,
    lane: usize,
) -> Result<(), Outside>
    requires ready { IsReady place.now frame.old memory.old cells.old }
    requires mask { m < (listing place.now).routine.masks }
    requires found { IsCall place.now slot found.now }
    requires lane { lane < (entry place.now).lanes }
    ensures keeps { Keeps place.now frame.new memory.new }
    ensures runs { Runs result (lanes_of frame.old) (lanes_of frame.new) (outer_of memory.old (O.state out.old)) (outer_of memory.new (O.state out.new))
        (in_lane (call_one m (call_site_of found.now.slot.now) (enters found.now.place.number (site found.now.place))) lane) }
{
    if !frame.is_live(m, lane) {
        return Ok(());
    }
    let inner = &found.place;
    let (words, rest) = cells.split_at_mut(frame_size(inner));
    let mut callee = frame_of(inner, words);
    pass_one(place, found, frame, lane, &mut callee);
    hand_over(place, inner, memory, &callee, rest);
    enter(inner, memory, out, &mut callee, rest)?;
    hand_back(place, inner, memory);
    take(
        frame,
        &callee,
        found.slot.result,
        inner.code.result,
        0,
        lane,
    );
    Ok(())
}

/// A simd loop, in lane 0.
#[cycle(run)]
fn run_simd<O: Sink>(
    place: &Place<'_>,
    memory: &mut Store,
    out: &mut O,
    frame: &mut Frame<'_>,
    cells: &mut [Word],
    m: u16,
    number: u32,
) -> Result<(), Outside>
    requires ready { IsReady place.now frame.old memory.old cells.old }
    requires mask { m < (listing place.now).routine.masks }
    requires number { number < (listing place.now).routine.loops }
    requires some { 0 < (entry place.now).lanes }
    ensures keeps { Keeps place.now frame.new memory.new }
    ensures runs { Runs result (lanes_of frame.old) (lanes_of frame.new) (outer_of memory.old (O.state out.old)) (outer_of memory.new (O.state out.new))
        (runs_simd (site place.now) m (simd_of (site place.now) number)) }
{
    if !frame.is_live(m, 0) {
        return Ok(());
    }
    let found = find_loop(place, number);
    let asked = iterations(place, found.chunk.site, frame);
    let stop = call_all_turns(place, memory, out, frame, cells, &found, number, asked)?;
    settle(place, frame, asked, stop);
    Ok(())
}

/// The calls of a simd loop's body, of which so many iterations are asked for.
#[cycle(run)]
fn call_all_turns<O: Sink>(
    place: &Place<'_>,
    memory: &mut Store,
    out: &mut O,
    frame: &Frame<'_>,
    cells: &mut [Word],
    found: &FoundSimd<'_>,
    number: u32,
    asked: u64,
) -> Result<Option<Stop>, Outside>
    requires ready { IsReady place.now frame.now memory.old cells.old }
    requires found { IsLoop place.now number found.now }
    requires some { 0 < (entry place.now).lanes }
    requires asked { asked ≡ iterations (number_at (regs place.now) (lanes_of frame.now 0) (simd_site_of found.now.chunk.site.now).low) (number_at (regs place.now) (lanes_of frame.now 0) (simd_site_of found.now.chunk.site.now).high) }
    ensures store { FitsStore place.now.image.now memory.new }
    ensures runs { RunsCalls result (outer_of memory.old (O.state out.old)) (outer_of memory.new (O.state out.new))
        (λ mem. all_calls (enters found.now.chunk.place.number (site found.now.chunk.place)) (enters found.now.rest.place.number (site found.now.rest.place)) (body_args (site place.now) (simd_site_of found.now.chunk.site.now) (lanes_of frame.now 0))
        (entry found.now.chunk.place).lanes (guard_holds (lanes_of frame.now 0) (simd_site_of found.now.chunk.site.now).guards) (min asked place.now.turns) mem) }
{
    let most = least(asked, place.turns);
    if !guard_holds(place, found.chunk.site, frame) {
        return call_in_turn(place, memory, out, frame, cells, &found.rest, 0, most);
    }
    let lanes = u32::from(found.chunk.place.entry.lanes);
    let stop = call_in_turn(
        place,
        memory,
        out,
        frame,
        cells,
        &found.chunk,
        0,
        most / lanes,
    )?;
    if stop.is_some() {
        return Ok(stop);
    }
    call_in_turn(
        place,
        memory,
        out,
        frame,
        cells,
        &found.rest,
        most / lanes * lanes,
        most % lanes,
    )
}

/// Calls of the body of a simd loop, one after the other, until one stops.
#[cycle(run)]
fn call_in_turn<O: Sink>(
    place: &Place<'_>,
    memory: &mut Store,
    out: &mut O,
    frame: &Frame<'_>,
    cells: &mut [Word],
    body: &Body<'_>,
    base: u32,
    count: u32,
) -> Result<Option<Stop>, Outside>
    requires ready { IsReady place.now frame.now memory.old cells.old }
    requires body { IsTurn place.now body.now }
    requires some { 0 < (entry place.now).lanes }
    requires asked { base + count * (entry body.now.place).lanes ≤ iterations (number_at (regs place.now) (lanes_of frame.now 0) (simd_site_of body.now.site.now).low) (number_at (regs place.now) (lanes_of frame.now 0) (simd_site_of body.now.site.now).high) }
    ensures store { FitsStore place.now.image.now memory.new }
    ensures runs { RunsCalls result (outer_of memory.old (O.state out.old)) (outer_of memory.new (O.state out.new)) (λ mem. calls_in_turn (enters body.now.place.number (site body.now.place)) (body_args (site place.now) (simd_site_of body.now.site.now) (lanes_of frame.now 0) (entry body.now.place).lanes base) (entry body.now.place).lanes count 0 mem) }
{
    let inner = &body.place;
    for turn in 0..count {
        let (words, rest) = cells.split_at_mut(frame_size(inner));
        let mut callee = frame_of(inner, words);
        pass_body(place, body, frame, base, turn, &mut callee);
        hand_over(place, inner, memory, &callee, rest);
        enter(inner, memory, out, &mut callee, rest)?;
        hand_back(place, inner, memory);
        if let Some(stop) = lowest_stop(&callee) {
            return Ok(Some(stop));
        }
    }
    Ok(None)
}
