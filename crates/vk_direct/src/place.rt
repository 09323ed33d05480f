// Where an entry runs that is called from outside.

ghost use Rattle.std.specs.Prelude.{◌≡◌, ◌<◌, length};
ghost use Rattle.vk_direct.specs.Places.{IsOutermost};

use vk_object::Image;
use vk_steps::Place;

// How deep calls go below an entry that is called from outside: a chain of calls has at most 64 entries.
const MAX_DEPTH: u32 = 63;

/// Where an entry of an image runs that is called from outside.
pub fn place_of<'a>(image: &'a Image, number: u32, turns: u32) -> Place<'a>
    requires { number < length image.now.entries.items }
    ensures outermost { IsOutermost result }
    ensures image { result.image.now ≡ image.now }
    ensures number { result.number ≡ number }
    ensures turns { result.turns ≡ turns }
{
    let entry = &image.entries[number as usize];
    Place {
        image,
        turns,
        depth: MAX_DEPTH,
        number,
        entry,
        code: &image.codes[entry.code as usize],
    }
}
