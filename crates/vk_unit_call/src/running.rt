// A run of one code.

ghost use Rattle.std.specs.Prelude.{◌≡◌, ◌+◌, ◌<◌, ◌≤◌, ℕ, length, take, IfOk, true};
ghost use Rattle.vk_lanes.specs.Masks.{is_on, lane_count};
ghost use Rattle.vk_lanes.specs.Words.{word_in};
ghost use Rattle.vk_code.specs.Listing.{listing_of};
ghost use Rattle.vk_lane.specs.Runs.{results_of};
ghost use Rattle.vk_arguments.specs.Arguments.{passed};
ghost use Rattle.vk_lane_lines.specs.Lines.{stops_in};
ghost use Rattle.vk_direct.specs.Taking.{are_words_of};
ghost use Rattle.vk_flat_functions.specs.Returns.{HasParams, IsLaneCode};
ghost use Rattle.vk_unit_call.specs.Inner.Runs.{ran};

use std::alloc::Global;
use vk_code::Code;
use vk_lanes::LaneMask;
use vk_machine::Machine;
use vk_memory::Memory;
use vk_one_image::one_image;
use vk_types::{Stop, Word};

/// What a call gives: for each lane the word of its result, 0 where it was off or stopped, and its stop, if any.
#[derive(Drop)]
pub struct Results {
    pub words: Vec<Word>,
    pub stops: Vec<Option<Stop>>,
}

/// Runs the code in the lanes of a mask, on a word for each lane for each parameter, one parameter after another.
pub fn run(
    alloc: Global,
    code: Code,
    turns: u32,
    mask: &LaneMask,
    words: &[Word],
) -> Result<Results, Memory>
    requires code { IsLaneCode (listing_of code) }
    requires params { (listing_of code).routine.params ≤ 64 }
    requires registers { length (listing_of code).routine.regs + (listing_of code).routine.masks ≤ 8192 }
    requires instrs { length (listing_of code).routine.instrs ≤ 4294967295 }
    requires lanes { 0 < lane_count mask.now }
    requires words { are_words_of (lane_count mask.now) (take (listing_of code).routine.params (listing_of code).routine.regs) words.now ≡ true }
    ensures lengths { IfOk result (λ r. (length r.words.items ≡ lane_count mask.now) × (length r.stops.items ≡ lane_count mask.now)) }
    ensures words { IfOk result (λ r. (lane : ℕ) →
        word_in r.words.items lane ≡ results_of (is_on mask.now) (λ j. 0) (ran (listing_of code) turns (lane_count mask.now) (is_on mask.now) (passed (lane_count mask.now) words.now)) lane) }
    ensures stops { IfOk result (λ r. (lane : ℕ) → lane < lane_count mask.now →
        stops_in r.stops.items lane ≡ (ran (listing_of code) turns (lane_count mask.now) (is_on mask.now) (passed (lane_count mask.now) words.now)).stop lane) }
{
    let lanes = mask.len();
    let image = one_image(alloc, code, lanes as u16)?;
    let mut machine = Machine::prepare(alloc, image)?;
    let mut results = vec![in alloc; Word(0); lanes]?;
    let mut stops = vec![in alloc; None; lanes]?;
    machine.call(0, mask, words, &mut results, &mut stops, turns);
    Ok(Results {
        words: results,
        stops,
    })
}
