//! Runs a fixed amount of lane code, so that its time can be taken from outside, and prints a sum that depends on all of it.
//!
//!     vk_bench WORK LANES CHUNKS
//!
//! WORK is `add` (64 additions a chunk), `masked` (a loop in which each lane makes another number of turns) or `calls` (a chain of
//! three calls a chunk). The program is one simd loop of CHUNKS chunks of LANES iterations.
#![tactic(auto)]

mod images;
mod works;

use images::{Size, image_for};
use std::alloc::Global;
use std::env;
use std::process::ExitCode;
use vk_io::{Memory, Sink, StreamSink};
use vk_machine::Machine;
use vk_meaning::Reading;
use works::Work;

fn main(rt: HostRuntime) -> ExitCode {
    let Some(size) = size_of(&rt) else {
        return ExitCode::from(2);
    };
    let mut out = StreamSink::new(rt.stdout());
    match bench(rt.alloc(), size, &mut out) {
        Ok(true) => ExitCode::from(0),
        Ok(false) => ExitCode::from(1),
        Err(Memory) => ExitCode::from(6),
    }
}

// The work that the words ask for.
fn size_of(rt: &HostRuntime) -> Option<Size> {
    let Ok(args) = env::args(rt) else {
        return None;
    };
    let mut words = args.skip(1);
    let work = Work::named(&words.next()?)?;
    let Ok(lanes) = words.next()?.parse::<u16>() else {
        return None;
    };
    let Ok(chunks) = words.next()?.parse::<u32>() else {
        return None;
    };
    Some(Size {
        work,
        lanes,
        chunks,
    })
}

// Runs the work, if it may have so many lanes.
fn bench<O: Sink>(alloc: Global, size: Size, out: &mut O) -> Result<bool, Memory> {
    let Some(image) = image_for(alloc, size)? else {
        return Ok(false);
    };
    if image.main.is_none() {
        return Ok(false);
    }
    let mut machine = Machine::prepare(alloc, image)?;
    Ok(machine.run(u32::MAX, out) == Ok(Reading::Done))
}
