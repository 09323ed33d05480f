//! Makes the bytes of a large image, reads them in pieces, writes the image again, and tells whether the bytes are the same, so that
//! the time of each can be taken from outside.
//!
//!     vk_image_bench STEP WORK COUNT SIZE
//!
//! STEP is the last that is done, `made`, `read` or `written`. WORK is `elements` (an array of COUNT ints that are given), `instrs`
//! (a code of COUNT instructions), `entries` (COUNT entries of one code), `functions` (COUNT codes, each with an entry) or `all` (the
//! first three, of COUNT each). The pieces have SIZE bytes.
#![tactic(auto)]

mod works;

ghost use Rattle.std.specs.Prelude.{◌≢◌};

use std::alloc::Global;
use std::env;
use std::process::ExitCode;
use vk_format::ObjectFail;
use vk_image_codec::ImageFeed;
use vk_image_write::write_image;
use vk_object::Image;
use works::Work;

/// The last step that is done.
#[derive(Clone, Copy)]
enum Step {
    Made,
    Read,
    Written,
}

/// What the words ask for.
#[derive(Clone, Copy)]
struct Size {
    step: Step,
    work: Work,
    count: u32,
    piece: usize,
}

impl Step {
    // The step with this name.
    fn named(name: &str) -> Option<Step> {
        match name {
            "made" => Some(Step::Made),
            "read" => Some(Step::Read),
            "written" => Some(Step::Written),
            _ => None,
        }
    }

    // What was done.
    fn told(self) -> &'static str {
        match self {
            Step::Made => "made",
            Step::Read => "made and read",
            Step::Written => "read and written again",
        }
    }
}

fn main(rt: HostRuntime) -> ExitCode {
    let Some(size) = size_of(&rt) else {
        return ExitCode::from(2);
    };
    let done = size.step.told();
    match run(rt.alloc(), size) {
        Ok(Some(count)) => match println!(rt; "{count} bytes are {done}") {
            Ok(()) => ExitCode::from(0),
            Err(_) => ExitCode::from(5),
        },
        Ok(None) => ExitCode::from(1),
        Err(_) => ExitCode::from(6),
    }
}

fn size_of(rt: &HostRuntime) -> Option<Size> {
    let Ok(args) = env::args(rt) else {
        return None;
    };
    let mut words = args.skip(1);
    let step = Step::named(&words.next()?)?;
    let work = Work::named(&words.next()?)?;
    let Ok(count) = words.next()?.parse::<u32>() else {
        return None;
    };
    let Ok(piece) = words.next()?.parse::<usize>() else {
        return None;
    };
    Some(Size {
        step,
        work,
        count,
        piece,
    })
}

// How many bytes there are, if the steps are done and the bytes that are written are the same.
fn run(alloc: Global, size: Size) -> Result<Option<usize>, ObjectFail> {
    if size.piece == 0 {
        return Ok(None);
    }
    let bytes = size.work.bytes(alloc, size.count)?;
    match size.step {
        Step::Made => Ok(Some(bytes.len())),
        Step::Read => match read(alloc, &bytes, size.piece) {
            Err(fail) => Err(fail),
            Ok(_) => Ok(Some(bytes.len())),
        },
        Step::Written => again(alloc, &bytes, size.piece),
    }
}

// The image that the bytes spell, read in pieces.
fn read(alloc: Global, bytes: &[u8], piece_size: usize) -> Result<Image, ObjectFail>
    requires { piece_size ≢ 0 }
{
    let mut feed = ImageFeed::new(alloc);
    for piece in bytes.chunks(piece_size) {
        match feed.feed(piece) {
            Ok(()) => {}
            Err(fail) => return Err(fail),
        }
    }
    feed.end()
}

// How many bytes there are, if they are the same when they are written again.
fn again(alloc: Global, bytes: &[u8], piece_size: usize) -> Result<Option<usize>, ObjectFail>
    requires { piece_size ≢ 0 }
{
    match read(alloc, bytes, piece_size) {
        Err(fail) => Err(fail),
        Ok(image) => {
            if image.main.is_none() {
                return Ok(None);
            }
            let written = write_image(alloc, &image)?;
            if written.as_slice() != bytes {
                return Ok(None);
            }
            Ok(Some(bytes.len()))
        }
    }
}
