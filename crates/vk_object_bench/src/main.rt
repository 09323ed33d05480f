//! Reads a large object from bytes in pieces, writes it again, and tells whether the bytes are the same, so that its time can be taken
//! from outside.
//!
//!     vk_object_bench WORK COUNT SIZE
//!
//! WORK is `elements` (an array of COUNT bytes), `instrs` (a code of COUNT instructions), `symbols` (COUNT arrays that are declared
//! only) or `directives` (a function with COUNT directives, at most 65535). The pieces have SIZE bytes.
#![tactic(auto)]

mod works;

use std::alloc::Global;
use std::env;
use std::process::ExitCode;
use vk_format::ObjectFail;
use vk_object_codec::ObjectFeed;
use vk_object_write::write_object;
use works::Work;

/// What the words ask for.
#[derive(Clone, Copy)]
struct Size {
    work: Work,
    count: u32,
    piece: usize,
}

fn main(rt: HostRuntime) -> ExitCode {
    let Some(size) = size_of(&rt) else {
        return ExitCode::from(2);
    };
    match again(rt.alloc(), size) {
        Ok(Some(count)) => match println!(rt; "{count} bytes are read and written again") {
            Ok(()) => ExitCode::from(0),
            Err(_) => ExitCode::from(5),
        },
        Ok(None) => ExitCode::from(1),
        Err(_) => ExitCode::from(6),
    }
}

fn size_of(rt: &HostRuntime) -> Option<Size> {
    let Ok(args) = env::args(rt) else {
        return None;
    };
    let mut words = args.skip(1);
    let work = Work::named(&words.next()?)?;
    let Ok(count) = words.next()?.parse::<u32>() else {
        return None;
    };
    let Ok(piece) = words.next()?.parse::<usize>() else {
        return None;
    };
    Some(Size { work, count, piece })
}

// How many bytes there are, if they are the same when they are written again.
fn again(alloc: Global, size: Size) -> Result<Option<usize>, ObjectFail> {
    if size.piece == 0 {
        return Ok(None);
    }
    let bytes = size.work.bytes(alloc, size.count)?;
    let mut feed = ObjectFeed::new(alloc);
    for piece in bytes.chunks(size.piece) {
        match feed.feed(piece) {
            Ok(()) => {}
            Err(fail) => return Err(fail),
        }
    }
    match feed.end() {
        Err(fail) => Err(fail),
        Ok(object) => {
            let written = write_object(alloc, &object)?;
            if written.as_slice() != bytes.as_slice() {
                return Ok(None);
            }
            Ok(Some(bytes.len()))
        }
    }
}
