// How often a simd loop's body is called, and whether it may be called for several iterations at once.

ghost use Rattle.std.specs.Prelude.{◌≡◌, ◌<◌, ◌==◌, not, true, min};
ghost use Rattle.vk_code.specs.Listing.{listing_of, simd_site_of};
ghost use Rattle.vk_code.specs.Valid.{is_good_loop};
ghost use Rattle.vk_object.specs.Images.{names_of};
ghost use Rattle.vk_object.specs.Lane.{number_at};
ghost use Rattle.vk_object.specs.Memory.{array_of};
ghost use Rattle.vk_types.specs.Numbers.{IsInRange};
ghost use Rattle.vk_object.specs.Machine.{guard_holds, iterations};
ghost use Rattle.vk_frames.specs.Frames.{IsFrame, lanes_of};
ghost use Rattle.vk_steps.specs.Places.{FitsPlace, entry, listing, regs, tables};

use crate::numbers::number_in;
use vk_code::code::{Code, Guard, LoopSite};
use vk_frames::Frame;
use vk_steps::Place;
use vk_steps::registers::{operand, ty_at};
use vk_types::{Ty, number};

/// How many iterations a simd loop is asked for: the greater of 0 and high minus low.
pub fn iterations(place: &Place<'_>, site: &LoopSite, frame: &Frame<'_>) -> u64
    requires good { is_good_loop (names_of (tables place.now)) (listing place.now).routine (simd_site_of site.now) ≡ true }
    requires some { 0 < (entry place.now).lanes }
    requires fits { FitsPlace place.now frame.now }
    ensures { result ≡ iterations (number_at (regs place.now) (lanes_of frame.now 0) (simd_site_of site.now).low) (number_at (regs place.now) (lanes_of frame.now 0) (simd_site_of site.now).high) }
{
    let ty = ty_at(place.code, site.low);
    let low = number(ty, operand(frame, place.code, ty, site.low, 0));
    let high = number(ty, operand(frame, place.code, ty, site.high, 0));
    between(ty, low, high)
}

/// Whether the pointers of each pair of a guard name different arrays.
pub fn guard_holds(place: &Place<'_>, site: &LoopSite, frame: &Frame<'_>) -> bool
    requires good { is_good_loop (names_of (tables place.now)) (listing place.now).routine (simd_site_of site.now) ≡ true }
    requires some { 0 < (entry place.now).lanes }
    requires fits { FitsPlace place.now frame.now }
    ensures { result ≡ guard_holds (lanes_of frame.now 0) (simd_site_of site.now).guards }
{
    for guard in &site.guards {
        if !are_apart(frame, *guard) {
            return false;
        }
    }
    true
}

/// The lesser number.
pub fn least(n: u64, turns: u32) -> u32
    ensures { result ≡ min n turns }
{
    if n < u64::from(turns) {
        n as u32
    } else {
        turns
    }
}

// How many numbers of a type there are from `low` up to `high`, exclusively.
fn between(ty: Ty, low: i128, high: i128) -> u64
    requires low { IsInRange ty low }
    requires high { IsInRange ty high }
    ensures { result ≡ iterations low high }
{
    if low <= high { (high - low) as u64 } else { 0 }
}

// Whether two pointers name different arrays.
fn are_apart(frame: &Frame<'_>, guard: Guard) -> bool
    requires fits { IsFrame frame.now }
    requires some { 0 < frame.now.lanes }
    requires first { guard.first < frame.now.registers }
    requires second { guard.second < frame.now.registers }
    ensures { result ≡ not (array_of ((lanes_of frame.now 0).reg guard.first) == array_of ((lanes_of frame.now 0).reg guard.second)) }
{
    frame.word(guard.first, 0).0 / (1 << 32) != frame.word(guard.second, 0).0 / (1 << 32)
}
