// The entries that a slot and a simd loop call, with all that their callers need.

ghost use Rattle.std.specs.Prelude.{◌≡◌, ◌<◌, length};
ghost use Rattle.vk_steps.specs.Places.{IsSound, listing};
ghost use Rattle.vk_entries.specs.Callees.{IsCall, IsLoop};

use vk_calls::found::{Found, FoundSimd, find, find_simd};
use vk_steps::Place;

/// The call of a slot.
pub fn find_call<'a>(place: &Place<'a>, slot: u32) -> Found<'a>
    requires sound { IsSound place.now }
    requires slot { slot < length (listing place.now).routine.slots }
    ensures { IsCall place.now slot result }
{
    find(place, slot)
}

/// The entries of a simd loop.
pub fn find_loop<'a>(place: &Place<'a>, number: u32) -> FoundSimd<'a>
    requires sound { IsSound place.now }
    requires number { number < (listing place.now).routine.loops }
    ensures { IsLoop place.now number result }
{
    find_simd(place, number)
}
