// A machine with the memory of its runs.

ghost use Rattle.std.specs.Prelude.{◌≡◌, ◌+◌, ◌<◌, ◌≤◌, ℕ, true, length, IfOk, IsSome, None, slice_get, slice_index_or};
ghost use Rattle.vk_lanes.specs.Kernels.{Writes};
ghost use Rattle.vk_lanes.specs.Masks.{is_on, lane_count};
ghost use Rattle.vk_object.specs.Memory.{calls_of};
ghost use Rattle.vk_steps.specs.Places.{image_tables};
ghost use Rattle.vk_access.specs.Cells.{cells_in, length_in};
ghost use Rattle.vk_access.specs.Outer.{told};
ghost use Rattle.vk_access.specs.Stores.{FitsStore};
ghost use Rattle.vk_fresh.specs.Room.{longest_chain};
ghost use Rattle.vk_direct.specs.Given.{gives_on};
ghost use Rattle.vk_direct.specs.Taking.{takes_call};
ghost use Rattle.vk_machine.specs.Ends.{Ends, ending, program};

use crate::entering::{call_entry, call_silently};
use std::alloc::Global;
use vk_access::Store;
use vk_direct::call::direct_call;
use vk_direct::taking::takes_call;
use vk_fresh::room::room;
use vk_fresh::stores::first_store;
use vk_io::{Outside, Sink};
use vk_lanes::LaneMask;
use vk_meaning::{Reading, RunFail};
use vk_memory::Memory;
use vk_object::Image;
use vk_types::{Stop, Word};

/// A machine that runs the entries of an image, with the words of its arrays, how often each entry was called, and room for the
/// frames of all calls.
#[derive(Drop)]
pub struct Machine {
    image: Image,
    memory: Store,
    // Words for the frames along the longest chain of calls.
    frames: Vec<Word>,
    ghost fits: { FitsStore image memory },
    ghost roomy: { length frames.items ≡ longest_chain (image_tables image) },
}

impl Machine {
    ghost use Rattle.vk_machine.specs.Machines.{IsFresh, array_length, called, cells, count, outer, tables};

    /// A machine of the image that has not run. It takes all the memory that its calls need; where there is none the image is dropped.
    pub fn prepare(alloc: Global, image: Image) -> Result<Machine, Memory>
        ensures image { IfOk result (λ machine. machine.image ≡ image) }
        ensures fresh { IfOk result IsFresh }
    {
        let memory = first_store(alloc, &image)?;
        let frames = room(alloc, &image)?;
        Ok(Machine {
            image,
            memory,
            frames,
        })
    }

    /// Runs the program of a machine that has not run: one call of the entry `main`, where a loop makes at most `turns` turns.
    ///
    /// `out` gets a line for each printed number. `Write` comes only where its count of faults rose, and `Memory` never over a lean
    /// sink; then it has a front of these lines.
    pub fn run<O: Sink>(&mut self, turns: u32, out: &mut O) -> Result<Reading, RunFail>
        requires fresh { IsFresh self.old }
        requires main { IsSome self.old.image.main }
        ensures image { self.new.image ≡ self.old.image }
        ensures ends { Ends result (program (tables self.old) turns) (outer self.old (O.state out.old)) (outer self.new (O.state out.new)) }
    {
        let Some(main) = self.image.main else {
            unreachable!();
        };
        let mask = LaneMask::all(1);
        let mut results = [Word(0)];
        let mut stops = [None];
        let call = direct_call(&self.image, main as usize, turns, &mask, &[]);
        let ran = call_entry(
            &call,
            &mut self.memory,
            &mut self.frames,
            out,
            &mut results,
            &mut stops,
        );
        ending(ran, stops[0])
    }

    /// Calls an entry from outside in the lanes of a mask, where a loop makes at most `turns` turns.
    ///
    /// `args` has for each parameter a word for each lane, one parameter after another. `results` and `stops` have a place for each
    /// lane: a result is written in lanes that are on and do not stop, a stop or that there is none in all. What the entry prints
    /// goes nowhere; an entry of a function with directives prints nothing.
    pub fn call(
        &mut self,
        entry: usize,
        mask: &LaneMask,
        args: &[Word],
        results: &mut [Word],
        stops: &mut [Option<Stop>],
        turns: u32,
    )
        requires takes { takes_call (tables self.old) entry (lane_count mask.now) args.now ≡ true }
        requires results { length results.old ≡ lane_count mask.now }
        requires stops { length stops.old ≡ lane_count mask.now }
        ensures image { self.new.image ≡ self.old.image }
        ensures cells { cells self.new ≡ (called self.old turns entry mask.now args.now).mem.cells }
        ensures counts { (e : ℕ) → count self.new e ≡ told (count self.old e + calls_of e (called self.old turns entry mask.now args.now).mem.log) }
        ensures results { Writes (gives_on (is_on mask.now) (called self.old turns entry mask.now args.now)) (called self.old turns entry mask.now args.now).value results.old results.new }
        ensures stops { (j : ℕ) → j < lane_count mask.now → slice_index_or stops.new j None ≡ (called self.old turns entry mask.now args.now).stop j }
    {
        let call = direct_call(&self.image, entry, turns, mask, args);
        call_silently(&call, &mut self.memory, &mut self.frames, results, stops);
    }

    /// Whether an entry may be called in so many lanes on these words: for each parameter one canonical word for each lane, one
    /// parameter after another.
    pub fn takes(&self, entry: usize, lanes: usize, args: &[Word]) -> bool
        ensures { result ≡ takes_call (tables self.now) entry lanes args.now }
    {
        takes_call(&self.image, entry, lanes, args)
    }

    /// How often an entry was called. The count stays at its last value.
    pub fn stats(&self, entry: usize) -> u64
        requires { entry < length (tables self.now).entries }
        ensures { result ≡ count self.now entry }
    {
        self.memory.counts[entry]
    }

    /// An element of an array.
    pub fn cell(&self, array: usize, index: usize) -> Word
        requires { index < array_length (tables self.now) array }
        ensures { result.0 ≡ cells self.now array index }
    {
        word_at(&self.memory.cells, array, index)
    }

    /// The image that the machine was prepared for.
    pub fn image(&self) -> &Image
        ensures { result.now ≡ self.now.image }
    {
        &self.image
    }
}

// How a program ends, by what its call answered and the stop of its lane.
fn ending(ran: Result<(), Outside>, stop: Option<Stop>) -> Result<Reading, RunFail>
    ensures { result ≡ ending ran stop }
{
    match ran {
        Ok(()) => match stop {
            None => Ok(Reading::Done),
            Some(stop) => Ok(Reading::Stopped(stop)),
        },
        Err(Outside::Failed) => Err(RunFail::Write),
        Err(Outside::Memory) => Err(RunFail::Memory),
    }
}

fn word_at(rows: &[Vec<Word>], array: usize, index: usize) -> Word
    requires { index < length_in rows.now array }
    ensures { result.0 ≡ cells_in rows.now array index }
{
    rows[array][index]
}
