// Frames of entries that are called.

ghost use Rattle.std.specs.Prelude.{◌≡◌, ◌+◌, ◌≤◌, length, Some};
ghost use Rattle.vk_object.specs.Images.{frame_cells};
ghost use Rattle.vk_frames.specs.Frames.{lanes_of};
ghost use Rattle.vk_frames.specs.Rows.{no_lanes};
ghost use Rattle.vk_steps.specs.Places.{FitsPlace, IsSound, entry, listing};

use vk_frames::Frame;
use vk_steps::Place;
use vk_types::Word;

/// How many words the frame of an entry has.
pub fn frame_size(place: &Place<'_>) -> usize
    requires { IsSound place.now }
    ensures { result ≡ frame_cells (entry place.now) (Some (listing place.now)) }
{
    (place.code.regs.len() + usize::from(place.code.masks)) * usize::from(place.entry.lanes)
}

/// An empty frame of an entry in these words.
pub fn frame_of<'a>(place: &Place<'_>, words: &'a mut [Word]) -> Frame<'a>
    requires sound { IsSound place.now }
    requires words { length words.old ≡ frame_cells (entry place.now) (Some (listing place.now)) }
    ensures fits { FitsPlace place.now result }
    ensures empty { lanes_of result ≡ no_lanes }
{
    Frame::new(
        words,
        place.code.regs.len(),
        usize::from(place.code.masks),
        usize::from(place.entry.lanes),
    )
}
