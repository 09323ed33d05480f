// The entries that a slot and a simd loop call.

ghost use Rattle.std.specs.Prelude.{◌≡◌, ◌<◌, length};
ghost use Rattle.vk_steps.specs.Places.{IsSound, listing};
ghost use Rattle.vk_calls.specs.Found.{IsCallee, IsCalled, IsFound, IsFoundSimd};

use vk_code::code::{LoopSite, Slot};
use vk_steps::Place;

/// A slot, and where the entry that it calls runs.
#[derive(Clone, Copy)]
pub struct Found<'a> {
    pub slot: &'a Slot,
    pub place: Place<'a>,
}

/// A simd loop, and where an entry of its body runs.
#[derive(Clone, Copy)]
pub struct Body<'a> {
    pub site: &'a LoopSite,
    pub place: Place<'a>,
}

/// The entries of a simd loop.
#[derive(Clone, Copy)]
pub struct FoundSimd<'a> {
    pub chunk: Body<'a>,
    pub rest: Body<'a>,
}

// Where an entry that is called runs.
fn callee<'a>(place: &Place<'a>, number: u32) -> Place<'a>
    requires sound { IsSound place.now }
    requires called { IsCalled place.now number }
    ensures callee { IsCallee place.now result }
    ensures number { result.number ≡ number }
{
    let entry = &place.image.entries[number as usize];
    Place {
        image: place.image,
        turns: place.turns,
        depth: place.depth - 1,
        number,
        entry,
        code: &place.image.codes[entry.code as usize],
    }
}

/// The call of a slot.
pub fn find<'a>(place: &Place<'a>, slot: u32) -> Found<'a>
    requires sound { IsSound place.now }
    requires slot { slot < length (listing place.now).routine.slots }
    ensures { IsFound place.now slot result }
{
    Found {
        slot: &place.code.slots[slot as usize],
        place: callee(place, place.entry.targets[slot as usize]),
    }
}

/// The entries of a simd loop.
pub fn find_simd<'a>(place: &Place<'a>, number: u32) -> FoundSimd<'a>
    requires sound { IsSound place.now }
    requires number { number < (listing place.now).routine.loops }
    ensures { IsFoundSimd place.now number result }
{
    let site = &place.code.loops[number as usize];
    let targets = place.entry.loops[number as usize];
    FoundSimd {
        chunk: Body {
            site,
            place: callee(place, targets.chunk),
        },
        rest: Body {
            site,
            place: callee(place, targets.rest),
        },
    }
}
