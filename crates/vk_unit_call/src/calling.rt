// A call of a unit's function.

ghost use Rattle.std.specs.Prelude.{◌≡◌, ◌<◌, ◌*◌, ℕ, [], length, IfOk, Some, true};
ghost use Rattle.vk_ast.specs.Tree.{expr_of};
ghost use Rattle.vk_ast.specs.Units.{function_of};
ghost use Rattle.vk_lanes.specs.Masks.{is_on, lane_count};
ghost use Rattle.vk_lanes.specs.Words.{word_in};
ghost use Rattle.vk_rules_book.specs.Scopes.{types_of};
ghost use Rattle.vk_rules_book.specs.Rules.{Subject};
ghost use Rattle.vk_meaning.specs.Lanes.{AreTyped};
ghost use Rattle.vk_arguments.specs.Arguments.{passed};
ghost use Rattle.vk_lane_lines.specs.Lines.{AreResults, ended, stops_in, told_by};
ghost use Rattle.vk_one_return.specs.Form.{IsForm, IsReturn, IsSmall};
ghost use Rattle.vk_unit_call.specs.Values.{scalar_value};

use crate::running::{Results, run};
use std::alloc::Global;
use vk_flat_functions::compile;
use vk_lanes::LaneMask;
use vk_memory::Memory;
use vk_one_return::Form;
use vk_types::Word;

/// Calls the function in the lanes of a mask, at least one, where a loop would make at most `turns` turns.
///
/// `words` has for each parameter a canonical word for each lane, one parameter after another. In each lane that is on there is what
/// the scalar call on its words gives: its stop, or the word of its value.
pub fn call(
    alloc: Global,
    form: &Form<'_>,
    turns: u32,
    mask: &LaneMask,
    words: &[Word],
) -> Result<Results, Memory>
    requires returns { IsReturn (function_of form.now.function.now) (expr_of form.now.value.now) form.now.result }
    requires small { IsSmall (function_of form.now.function.now) }
    requires lanes { 0 < lane_count mask.now }
    requires words { length words.now ≡ length form.now.function.now.params.items * lane_count mask.now }
    requires typed { AreTyped (types_of form.now.function.now.params.items) [] (lane_count mask.now) (passed (lane_count mask.now) words.now) (is_on mask.now) }
    ensures lengths { IfOk result (λ r. (length r.words.items ≡ lane_count mask.now) × (length r.stops.items ≡ lane_count mask.now)) }
    ensures results { IfOk result (λ r. (unit : Subject) → IsForm unit (function_of form.now.function.now) (expr_of form.now.value.now) form.now.result → (lane : ℕ) → lane < lane_count mask.now → is_on mask.now lane ≡ true →
        ended (Some form.now.result) (word_in r.words.items lane) (stops_in r.stops.items lane)
        ≡ told_by (scalar_value unit (function_of form.now.function.now) turns (passed (lane_count mask.now) words.now) lane)) }
    ensures typed { IfOk result (λ r. AreResults (Some form.now.result) (lane_count mask.now) (is_on mask.now) (word_in r.words.items) (stops_in r.stops.items)) }
{
    let code = compile(alloc, form)?;
    run(alloc, code, turns, mask, words)
}
