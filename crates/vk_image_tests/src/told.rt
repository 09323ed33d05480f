// What a feed tells of bytes that come in pieces.

use std::alloc::Global;
use vk_format::{ObjectFail, ObjectFault};
use vk_image_codec::ImageFeed;
use vk_memory::Memory;

/// The fault of bytes, and how many of them had come when it was told; all and one more where it was told at their end.
#[derive(Clone, Copy, PartialEq, Eq, Debug)]
pub struct Told {
    pub fault: ObjectFault,
    pub after: usize,
}

// The first fault that is told while pieces of so many bytes come.
fn fed(feed: &mut ImageFeed, bytes: &[u8], size: usize) -> Result<Option<Told>, Memory> {
    if size == 0 {
        return Ok(None);
    }
    let mut after: usize = 0;
    for piece in bytes.chunks(size) {
        after = bytes.len().min(after.saturating_add(size));
        match feed.feed(piece) {
            Err(ObjectFail::Fault(fault)) => return Ok(Some(Told { fault, after })),
            Err(ObjectFail::Memory) => return Err(Memory),
            Ok(()) => {}
        }
    }
    Ok(None)
}

/// The first fault of bytes that come in pieces of so many, none where they are an image's.
pub fn tell(alloc: Global, bytes: &[u8], size: usize) -> Result<Option<Told>, Memory> {
    let mut feed = ImageFeed::new(alloc);
    match fed(&mut feed, bytes, size)? {
        Some(fault) => return Ok(Some(fault)),
        None => {}
    }
    match feed.end() {
        Err(ObjectFail::Fault(fault)) => Ok(Some(Told {
            fault,
            after: bytes.len() + 1,
        })),
        Err(ObjectFail::Memory) => Err(Memory),
        Ok(_) => Ok(None),
    }
}

// How many bytes of pieces of this size have come with the piece in which this byte is the last that is needed.
fn come(needed: usize, size: usize, all: usize) -> usize {
    if size == 0 {
        return needed;
    }
    all.min(needed.div_ceil(size).saturating_mul(size))
}

/// Whether pieces of one byte, of seven and of all bytes tell this fault, and each as soon as so many bytes have come.
pub fn is_told(
    alloc: Global,
    bytes: &[u8],
    fault: ObjectFault,
    needed: usize,
) -> Result<bool, Memory> {
    for size in [1, 7, 2000] {
        let want = Told {
            fault,
            after: come(needed, size, bytes.len()),
        };
        if tell(alloc, bytes, size)? != Some(want) {
            return Ok(false);
        }
    }
    Ok(true)
}
