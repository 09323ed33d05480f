// The arguments of a call of a function with pointers.

ghost use Rattle.std.specs.Prelude.{◌≡◌, ℕ, ◌+◌, ◌*◌, ◌<◌, ◌≤◌, ◌^◌, length, map, option_map, IfOk, IsErrOf};
ghost use Rattle.vk_lanes.specs.Masks.{is_on, lane_count};
ghost use Rattle.vk_ends.specs.declared.ends.CallFault.{CallFault as CallFaultOf};
ghost use Rattle.vk_meaning.specs.Lanes.{AreTyped};
ghost use Rattle.vk_arguments.specs.Arguments.{called, given, passed, words_in};
ghost use Rattle.vk_arguments.specs.Texts.{mask_of};
ghost use Rattle.vk_pointer_texts.specs.Heads.{arrays_of};
ghost use Rattle.vk_pointer_texts.specs.Values.{pointer_value};
ghost use Rattle.vk_apart.specs.Apart.{AreTakenApart, IsCallRefused};

use crate::pairs::{Passed, least_pair};
use std::alloc::Global;
use vk_arguments::{Arguments, Callee, NoArguments, arguments_of};
use vk_ends::{CallFault, CallRule};
use vk_pointer_texts::Pointers;

/// The arguments that these texts give, whose pointers point into these arrays, and the mask that BITS gives.
///
/// The first rule that is broken is told: A5, A4 and A2 as of other arguments; then A3 with the least pair of active lanes, the lesser
/// first, that are not apart: a cell that a pointer of the one names, and may write, is named so by the other, or lies in an array
/// that a pointer of the other reads. A pointer outside its array names no cell.
pub fn call_arguments(
    alloc: Global,
    pointers: &Pointers<'_>,
    callee: &Callee,
    bits: Option<&str>,
    texts: &[&str],
) -> Result<Arguments, NoArguments>
    requires parameters { length callee.now.types.now < 2 ^ 32 }
    requires lanes { callee.now.lanes ≤ 256 }
    ensures taken { IfOk result (λ _. AreTakenApart (pointer_value (arrays_of pointers.now.heads.now)) (arrays_of pointers.now.heads.now) (called callee.now) (given bits.entry texts.now)) }
    ensures len { IfOk result (λ a. lane_count a.mask ≡ callee.now.lanes) }
    ensures mask { IfOk result (λ a. is_on a.mask ≡ mask_of callee.now.lanes (given bits.entry texts.now).bits) }
    ensures size { IfOk result (λ a. length a.words.items ≡ length callee.now.types.now * callee.now.lanes) }
    ensures words { IfOk result (λ a. (p lane : ℕ) → p < length callee.now.types.now → lane < callee.now.lanes → passed callee.now.lanes a.words.items p lane
        ≡ words_in (pointer_value (arrays_of pointers.now.heads.now)) callee.now.types.now (given bits.entry texts.now).texts p lane) }
    ensures typed { IfOk result (λ a. AreTyped callee.now.types.now (arrays_of pointers.now.heads.now) callee.now.lanes (passed callee.now.lanes a.words.items) (is_on a.mask)) }
    ensures refused { (fault : CallFaultOf) → IsErrOf result (NoArguments.Refused fault) →
        IsCallRefused (pointer_value (arrays_of pointers.now.heads.now)) (arrays_of pointers.now.heads.now) (called callee.now) (given bits.entry texts.now) fault.rule fault.first fault.second }
{
    let arguments = match arguments_of(alloc, pointers, callee, bits, texts) {
        Ok(arguments) => arguments,
        Err(fail) => return Err(fail),
    };
    let passed = Passed {
        heads: pointers.heads(),
        types: callee.types,
        lanes: callee.lanes,
        words: &arguments.words,
    };
    match least_pair(&passed, &arguments.mask) {
        Some((first, second)) => Err(NoArguments::Refused(CallFault {
            rule: CallRule::A3,
            first: first as u32,
            second: second as u32,
        })),
        None => Ok(arguments),
    }
}
