// The arguments of a call.

ghost use Rattle.std.specs.Prelude.{◌≡◌, ℕ, ◌+◌, ◌*◌, ◌<◌, ◌≤◌, ◌^◌, length, map, option_map, IfOk, IsErrOf};
ghost use Rattle.vk_lanes.specs.Masks.{is_on, lane_count};
ghost use Rattle.vk_ends.specs.declared.ends.CallFault.{CallFault as CallFaultOf};
ghost use Rattle.vk_meaning.specs.Lanes.{AreTyped};
ghost use Rattle.vk_arguments.specs.Arguments.{AreTaken, IsRefused, called, given, passed, words_in};
ghost use Rattle.vk_arguments.specs.Texts.{mask_of};

use crate::bits::mask_of;
use crate::fitting::first_misfit;
use crate::passed::Callee;
use crate::rows::{NoWords, words_of};
use crate::values::Values;
use std::alloc::Global;
use vk_ends::{CallFault, CallRule};
use vk_lanes::LaneMask;
use vk_types::Word;

/// The arguments of a call on lanes.
#[derive(Drop)]
pub struct Arguments {
    /// The active lanes.
    pub mask: LaneMask,
    /// The words of the first parameter, one for each lane, then those of the second, and so on.
    pub words: Vec<Word>,
}

/// Why there are no arguments.
#[derive(Clone, Copy, PartialEq, Eq, Debug)]
pub enum NoArguments {
    /// The first rule that is broken.
    Refused(CallFault),
    /// There was no memory left.
    Memory,
}

/// The arguments that these texts give, and the mask that BITS gives: one `0` or `1` a lane, lane 0 first; without it every lane is
/// active.
///
/// Each text is one value, which then stands in every lane, or one for each lane separated by commas. The first rule that is broken
/// is told: A5 (0 0) where BITS has another length or byte, or a `0` where no lane may be off; A4 with the least pair of a parameter
/// and a lane at which a text is missing (lane 0), extra (lane 0) or wrong, or has a value too few or too many (the lane of the
/// first); A2 with the least pair of a parameter and an active lane that does not fit the first active one by the parameter's kind.
pub fn arguments_of<V: Values>(
    alloc: Global,
    values: &V,
    callee: &Callee,
    bits: Option<&str>,
    texts: &[&str],
) -> Result<Arguments, NoArguments>
    requires parameters { length callee.now.types.now < 2 ^ 32 }
    requires lanes { callee.now.lanes ≤ 256 }
    ensures taken { IfOk result (λ _. AreTaken (V.meaning values.now) (called callee.now) (given bits.entry texts.now)) }
    ensures len { IfOk result (λ a. lane_count a.mask ≡ callee.now.lanes) }
    ensures mask { IfOk result (λ a. is_on a.mask ≡ mask_of callee.now.lanes (given bits.entry texts.now).bits) }
    ensures size { IfOk result (λ a. length a.words.items ≡ length callee.now.types.now * callee.now.lanes) }
    ensures words { IfOk result (λ a. (p lane : ℕ) → p < length callee.now.types.now → lane < callee.now.lanes →
        passed callee.now.lanes a.words.items p lane ≡ words_in (V.meaning values.now) callee.now.types.now (given bits.entry texts.now).texts p lane) }
    ensures typed { IfOk result (λ a. AreTyped callee.now.types.now (V.arrays values.now) callee.now.lanes (passed callee.now.lanes a.words.items) (is_on a.mask)) }
    ensures refused { (fault : CallFaultOf) → IsErrOf result (NoArguments.Refused fault) →
        IsRefused (V.meaning values.now) (called callee.now) (given bits.entry texts.now) fault.rule fault.first fault.second }
{
    let Some(mask) = mask_of(callee.lanes, callee.takes_mask, bits) else {
        return Err(refused(CallRule::A5, 0, 0));
    };
    let words = match words_of(alloc, values, callee.types, texts, callee.lanes) {
        Ok(words) => words,
        Err(NoWords::Wrong { parameter, lane }) => {
            return Err(refused(CallRule::A4, parameter, lane));
        }
        Err(NoWords::Memory) => return Err(NoArguments::Memory),
    };
    match first_misfit(callee, &words, &mask) {
        Some((parameter, lane)) => { Err(refused(CallRule::A2, parameter as u32, lane as u32)) }
        None => Ok(Arguments { mask, words }),
    }
}

// A call that a rule refuses.
fn refused(rule: CallRule, first: u32, second: u32) -> NoArguments
    ensures { result ≡ NoArguments.Refused (record { rule = rule; first = first; second = second }) }
{
    NoArguments::Refused(CallFault {
        rule,
        first,
        second,
    })
}
