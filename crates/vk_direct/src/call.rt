// The first frame of a call from outside.

ghost use Rattle.std.specs.Prelude.{◌≡◌, Some, length, true};
ghost use Rattle.vk_lanes.specs.Masks.{is_on, lane_count};
ghost use Rattle.vk_object.specs.Images.{frame_cells};
ghost use Rattle.vk_object.specs.Machine.{first_lane};
ghost use Rattle.vk_frames.specs.Frames.{lanes_of};
ghost use Rattle.vk_steps.specs.Places.{FitsPlace, entry, image_tables, listing};
ghost use Rattle.vk_direct.specs.Calls.{HasWordsFor, IsEntry, given_words};
ghost use Rattle.vk_direct.specs.Taking.{takes_call};

use crate::place::place_of;
use vk_entries::opening::frame_of;
use vk_frames::Frame;
use vk_lanes::LaneMask;
use vk_object::Image;
use vk_passing::arguments::{Arguments, fill};
use vk_steps::Place;
use vk_types::Word;

/// A call from outside: where it runs, the lanes that are on, and for each parameter a word for each lane, one parameter after
/// another.
#[derive(Clone, Copy)]
pub struct DirectCall<'a, 'b, 'c> {
    pub place: Place<'a>,
    pub mask: &'b LaneMask,
    pub words: &'c [Word],
}

impl Arguments for DirectCall<'_, '_, '_> {
    ghost good = { HasWordsFor };

    ghost params = { λ call. (listing call.place).routine.params };

    ghost lanes = { λ call. lane_count call.mask.now };

    ghost words = { λ call. given_words (lane_count call.mask.now) call.words.now };

    ghost on = { λ call. is_on call.mask.now };

    fn word(&self, parameter: u16, lane: usize) -> Word {
        self.words[usize::from(parameter) * self.mask.len() + lane]
    }

    fn is_on(&self, lane: usize) -> bool {
        self.mask.get(lane)
    }
}

/// The call of an entry from outside, in the lanes of a mask and on these words.
pub fn direct_call<'a, 'b, 'c>(
    image: &'a Image,
    entry: usize,
    turns: u32,
    mask: &'b LaneMask,
    words: &'c [Word],
) -> DirectCall<'a, 'b, 'c>
    requires { takes_call (image_tables image.now) entry (lane_count mask.now) words.now ≡ true }
    ensures entry { IsEntry result }
    ensures image { result.place.image.now ≡ image.now }
    ensures number { result.place.number ≡ entry }
    ensures turns { result.place.turns ≡ turns }
    ensures mask { result.mask.now ≡ mask.now }
    ensures words { result.words.now ≡ words.now }
{
    DirectCall {
        place: place_of(image, entry as u32, turns),
        mask,
        words,
    }
}

/// The first frame of a call from outside, in these words.
pub fn open<'a>(call: &DirectCall<'_, '_, '_>, words: &'a mut [Word]) -> Frame<'a>
    requires entry { IsEntry call.now }
    requires words { length words.old ≡ frame_cells (entry call.now.place) (Some (listing call.now.place)) }
    ensures fits { FitsPlace call.now.place result }
    ensures lanes { lanes_of result ≡ first_lane (entry call.now.place).lanes (listing call.now.place).routine.params (given_words (lane_count call.now.mask.now) call.now.words.now) (is_on call.now.mask.now) }
{
    let mut frame = frame_of(&call.place, words);
    fill(&mut frame, call, call.place.code.params);
    frame
}
