// The words of calls of a simd loop's body.

ghost use Rattle.std.specs.Prelude.{◌≡◌, ◌<◌, ℕ, zero, suc, ◌+◌, ◌*◌, ◌-◌, ◌^◌, ◌+ℤ◌, ◌≤ℤ◌, neg_ℤ, pos, nat_lt, None, Some, slice_get};
ghost use Rattle.vk_types.specs.Numbers.{number_of, word_of, wrap_number};
ghost use Rattle.vk_code.specs.Listing.{listing_of, simd_site_of};
ghost use Rattle.vk_object.specs.Lane.{number_at, ty_at};
ghost use Rattle.vk_frames.specs.Frames.{lanes_of};
ghost use Rattle.vk_args.specs.Readable.{CanPassBody};
ghost use Rattle.vk_args.specs.Bodies.{body_words, captured};

use crate::numbers::{number_in, wrapped};
use vk_code::code::{Code, LoopSite};
use vk_frames::Frame;
use vk_passing::arguments::Arguments;
use vk_steps::registers::ty_at;
use vk_types::{Ty, Word};

/// The words of call number `turn` of a loop's body, for iterations from `base` on: the iteration's number, and the captured words of
/// lane 0. All lanes are on.
#[derive(Clone, Copy)]
pub struct BodyArgs<'a, 'b> {
    pub frame: &'a Frame<'b>,
    pub code: &'a Code,
    pub site: &'a LoopSite,
    pub params: u16,
    pub lanes: u16,
    pub base: u32,
    pub turn: u32,
}

// The pattern of the number that comes so many iterations behind the first.
fn numbered(ty: Ty, low: i128, before: u64) -> Word
    requires low { neg_ℤ (pos (2 ^ 63)) ≤ℤ low }
    requires high { low ≤ℤ pos (2 ^ 64) }
    ensures { result.0 ≡ word_of (wrap_number ty (low +ℤ pos before)) }
{
    wrapped(ty, low + i128::from(before))
}

impl BodyArgs<'_, '_> {
    // The loop's first number.
    fn low(&self) -> i128
        requires { CanPassBody self.now.frame.now self.now.site.now.low (simd_site_of self.now.site.now).captures }
        ensures number { result ≡ number_at (listing_of self.now.code.now).routine.regs (lanes_of self.now.frame.now 0) self.now.site.now.low }
        ensures low { neg_ℤ (pos (2 ^ 63)) ≤ℤ result }
        ensures high { result ≤ℤ pos (2 ^ 64) }
    {
        number_in(
            ty_at(self.code, self.site.low),
            self.frame.word(self.site.low, 0),
        )
    }

    // How many iterations come before a lane's.
    fn before(&self, lane: usize) -> u64
        requires { lane < self.now.lanes }
        ensures before { result ≡ self.now.base + self.now.turn * self.now.lanes + lane }
    {
        u64::from(self.base) + u64::from(self.turn) * u64::from(self.lanes) + lane as u64
    }

    // The number of an iteration.
    fn number(&self, lane: usize) -> Word
        requires good { CanPassBody self.now.frame.now self.now.site.now.low (simd_site_of self.now.site.now).captures }
        requires lane { lane < self.now.lanes }
        ensures { result.0 ≡ body_words (listing_of self.now.code.now).routine.regs (simd_site_of self.now.site.now) (lanes_of self.now.frame.now 0) self.now.lanes self.now.base self.now.turn 0 lane }
    {
        let low = self.low();
        let before = self.before(lane);
        numbered(ty_at(self.code, self.site.low), low, before)
    }

    // A captured word.
    fn capture(&self, place: usize) -> Word
        requires { CanPassBody self.now.frame.now self.now.site.now.low (simd_site_of self.now.site.now).captures }
        ensures { result.0 ≡ captured (simd_site_of self.now.site.now).captures (lanes_of self.now.frame.now 0) place }
    {
        match self.site.captures.get(place) {
            Some(register) => self.frame.word(*register, 0),
            None => Word(0),
        }
    }
}

impl Arguments for BodyArgs<'_, '_> {
    ghost good = { λ a. CanPassBody a.frame.now a.site.now.low (simd_site_of a.site.now).captures };

    ghost params = { λ a. a.params };

    ghost lanes = { λ a. a.lanes };

    ghost words = { λ a. body_words (listing_of a.code.now).routine.regs (simd_site_of a.site.now) (lanes_of a.frame.now 0) a.lanes a.base a.turn };

    ghost on = { λ a i. nat_lt i a.lanes };

    fn word(&self, parameter: u16, lane: usize) -> Word {
        if parameter == 0 {
            return self.number(lane);
        }
        self.capture(usize::from(parameter) - 1)
    }

    fn is_on(&self, lane: usize) -> bool {
        lane < usize::from(self.lanes)
    }
}
