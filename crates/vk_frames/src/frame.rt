// The registers and masks of one call.

ghost use Rattle.std.specs.Prelude.{◌≡◌, ℕ, ◌+◌, ◌*◌, ◌^◌, ◌<◌, ◌≤◌, ◌==◌, nat_lt, not, ◌&&◌, None, is_none, length, slice_index_or};
ghost use Rattle.vk_object.specs.Lane.{is_live, with_mask, with_reg, with_stop};
ghost use Rattle.vk_object.specs.Machine.{put};
ghost use Rattle.vk_lanes.specs.Masks.{is_on, lane_count};
ghost use Rattle.vk_frames.specs.Rows.{pattern_at};

use vk_lanes::LaneMask;
use vk_types::{Stop, Word};

/// The most lanes of a frame.
pub const MAX_LANES: usize = 256;

/// The registers and masks of one call, each a row with a word for each lane, one after another, and the stops of its lanes.
#[derive(Drop)]
pub struct Frame<'a> {
    /// How many registers, masks and lanes there are.
    pub registers: usize,
    pub masks: usize,
    pub lanes: usize,
    pub(crate) words: &'a mut [Word],
    stops: [Option<Stop>; 256],
    // The lanes that have not stopped.
    pub(crate) running: LaneMask,
    ghost patterns: { (k : ℕ) → pattern_at words.now k < 2 ^ 64 },
    ghost counted: { lane_count running ≡ lanes },
    ghost runs: { (j : ℕ) → is_on running j ≡ (nat_lt j lanes && is_none (slice_index_or stops j None)) },
}

// A word that is not 0 where the lane is on.
fn bit(on: bool) -> Word
    ensures { not (result.0 == 0) ≡ on }
{
    if on { Word(1) } else { Word(0) }
}

// Writes 0 into each word.
fn clear(words: &mut [Word])
    ensures { (k : ℕ) → pattern_at words.new k ≡ 0 }
{
    for word in words.iter_mut() {
        *word = Word(0);
    }
}

impl<'a> Frame<'a> {
    ghost use Rattle.vk_frames.specs.Frames.{Fits, FitsAs, IsFrame, lanes_of};
    ghost use Rattle.vk_frames.specs.Rows.{no_lanes};

    /// A frame in these words, whose registers are 0, whose masks are off, and whose lanes have not stopped.
    pub fn new(words: &'a mut [Word], registers: usize, masks: usize, lanes: usize) -> Frame<'a>
        requires short { registers ≤ 65536 }
        requires few { lanes ≤ 256 }
        requires words { length words.old ≡ (registers + masks) * lanes }
        ensures fits { Fits registers masks lanes result }
        ensures empty { lanes_of result ≡ no_lanes }
    {
        clear(words);
        Frame {
            registers,
            masks,
            lanes,
            words,
            stops: [None; 256],
            running: LaneMask::all(lanes),
        }
    }

    // The place of a row in a lane.
    fn place(&self, row: usize, lane: usize) -> usize
        requires fits { IsFrame self.now }
        requires row { row < self.now.registers + self.now.masks }
        requires lane { lane < self.now.lanes }
        requires short { row < 131072 }
        ensures place { result ≡ row * self.now.lanes + lane }
        ensures inside { result < length self.now.words.now }
    {
        row * self.lanes + lane
    }

    // The place of the first word of a row.
    pub(crate) fn start(&self, row: usize) -> usize
        requires fits { IsFrame self.now }
        requires row { row < self.now.registers + self.now.masks }
        requires short { row < 131072 }
        ensures start { result ≡ row * self.now.lanes }
        ensures inside { result + self.now.lanes ≤ length self.now.words.now }
    {
        row * self.lanes
    }

    /// The word of a register in a lane.
    pub fn word(&self, register: u16, lane: usize) -> Word
        requires fits { IsFrame self.now }
        requires register { register < self.now.registers }
        requires lane { lane < self.now.lanes }
        ensures { result.0 ≡ (lanes_of self.now lane).reg register }
    {
        self.words[self.place(usize::from(register), lane)]
    }

    /// Writes a register in a lane.
    pub fn set_word(&mut self, register: u16, lane: usize, word: Word)
        requires fits { IsFrame self.old }
        requires register { register < self.old.registers }
        requires lane { lane < self.old.lanes }
        ensures fits { FitsAs self.old self.new }
        ensures lanes { lanes_of self.new ≡ put (lanes_of self.old) lane (with_reg (lanes_of self.old lane) register word.0) }
    {
        let place = self.place(usize::from(register), lane);
        self.words[place] = word;
    }

    /// Whether a lane is on in a mask.
    pub fn is_on(&self, mask: u16, lane: usize) -> bool
        requires fits { IsFrame self.now }
        requires mask { mask < self.now.masks }
        requires lane { lane < self.now.lanes }
        ensures { result ≡ (lanes_of self.now lane).on mask }
    {
        self.words[self.place(self.registers + usize::from(mask), lane)].0 != 0
    }

    /// Sets a mask in a lane.
    pub fn set_on(&mut self, mask: u16, lane: usize, on: bool)
        requires fits { IsFrame self.old }
        requires mask { mask < self.old.masks }
        requires lane { lane < self.old.lanes }
        ensures fits { FitsAs self.old self.new }
        ensures lanes { lanes_of self.new ≡ put (lanes_of self.old) lane (with_mask (lanes_of self.old lane) mask on) }
    {
        let row = self.registers + usize::from(mask);
        let place = self.place(row, lane);
        self.words[place] = bit(on);
    }

    /// The stop of a lane, if it has stopped.
    pub fn stop(&self, lane: usize) -> Option<Stop>
        requires { lane < 256 }
        ensures { result ≡ (lanes_of self.now lane).stop }
    {
        self.stops[lane]
    }

    /// Stops a lane.
    pub fn set_stop(&mut self, lane: usize, stop: Stop)
        requires fits { IsFrame self.old }
        requires lane { lane < self.old.lanes }
        ensures fits { FitsAs self.old self.new }
        ensures lanes { lanes_of self.new ≡ put (lanes_of self.old) lane (with_stop (lanes_of self.old lane) stop) }
    {
        self.stops[lane] = Some(stop);
        self.running.set(lane, false);
    }

    /// Whether a lane is on in a mask and has not stopped.
    pub fn is_live(&self, mask: u16, lane: usize) -> bool
        requires fits { IsFrame self.now }
        requires mask { mask < self.now.masks }
        requires lane { lane < self.now.lanes }
        ensures { result ≡ is_live mask (lanes_of self.now lane) }
    {
        self.is_on(mask, lane) && self.stop(lane).is_none()
    }
}
