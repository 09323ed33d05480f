// The first frame of a call.

ghost use Rattle.std.specs.Prelude.{◌≡◌, ◌<◌, ◌≤◌, ℕ, Bool};
ghost use Rattle.vk_object.specs.Machine.{first_lane, put};
ghost use Rattle.vk_frames.specs.Frames.{FitsAs, IsFrame, lanes_of};
ghost use Rattle.vk_frames.specs.Rows.{no_lanes};
ghost use Rattle.vk_passing.specs.Filled.{filled};

use vk_frames::Frame;
use vk_types::Word;

/// The words that a call passes, one for each parameter and lane, and the lanes that it gives.
pub trait Arguments {
    /// When the words can be read; how many parameters and lanes there are; the words, and the lanes that are on.
    ghost good: { Self → Type 0 };

    ghost params: { Self → ℕ };

    ghost lanes: { Self → ℕ };

    ghost words: { Self → ℕ → ℕ → ℕ };

    ghost on: { Self → ℕ → Bool };

    /// The word of a parameter in a lane.
    fn word(&self, parameter: u16, lane: usize) -> Word
        requires good { good self.now }
        requires parameter { parameter < params self.now }
        requires lane { lane < lanes self.now }
        ensures { result.0 ≡ words self.now parameter lane };

    /// Whether a lane is on.
    fn is_on(&self, lane: usize) -> bool
        requires good { good self.now }
        requires lane { lane < lanes self.now }
        ensures { result ≡ on self.now lane };
}

/// Fills an empty frame: the first registers have the words, and mask 0 the lanes that are on.
pub fn fill<A: Arguments>(callee: &mut Frame<'_>, args: &A, params: u16)
    requires fits { IsFrame callee.old }
    requires empty { lanes_of callee.old ≡ no_lanes }
    requires mask { 0 < callee.old.masks }
    requires registers { params ≤ callee.old.registers }
    requires good { A.good args.now }
    requires params { A.params args.now ≡ params }
    requires lanes { A.lanes args.now ≡ callee.old.lanes }
    ensures fits { FitsAs callee.old callee.new }
    ensures lanes { lanes_of callee.new ≡ first_lane callee.old.lanes params (A.words args.now) (A.on args.now) }
{
    for lane in 0..callee.lanes {
        fill_lane(callee, args, params, lane);
    }
}

// The same in one lane.
fn fill_lane<A: Arguments>(callee: &mut Frame<'_>, args: &A, params: u16, lane: usize)
    requires fits { IsFrame callee.old }
    requires empty { lanes_of callee.old lane ≡ no_lanes lane }
    requires mask { 0 < callee.old.masks }
    requires registers { params ≤ callee.old.registers }
    requires good { A.good args.now }
    requires params { A.params args.now ≡ params }
    requires lanes { A.lanes args.now ≡ callee.old.lanes }
    requires lane { lane < callee.old.lanes }
    ensures fits { FitsAs callee.old callee.new }
    ensures lanes { lanes_of callee.new ≡ put (lanes_of callee.old) lane (filled params (A.words args.now) (A.on args.now) lane) }
{
    for parameter in 0..params {
        callee.set_word(parameter, lane, args.word(parameter, lane));
    }
    callee.set_on(0, lane, args.is_on(lane));
}
