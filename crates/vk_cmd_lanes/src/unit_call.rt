// A call of what a name selects in a unit.

ghost use Rattle.std.specs.Prelude.{◌≡◌, ◌<◌, ◌*◌, [], length, IfOk, IsErrOf};
ghost use Rattle.std.specs.List.{concat};
ghost use Rattle.vk_kinds.specs.declared.kinds.Isa.TheVariants.{S};
ghost use Rattle.vk_ast.specs.Tree.{expr_of};
ghost use Rattle.vk_ast.specs.Units.{function_of};
ghost use Rattle.vk_rules_book.specs.Rules.{Subject};
ghost use Rattle.vk_rules_book.specs.Scopes.{types_of};
ghost use Rattle.vk_rules.specs.Verdicts.{judged};
ghost use Rattle.vk_lanes.specs.Masks.{is_on, lane_count};
ghost use Rattle.vk_meaning.specs.Lanes.{AreTyped};
ghost use Rattle.vk_one_return.specs.Form.{IsForm, IsReturn, IsSmall};
ghost use Rattle.vk_arguments.specs.Arguments.{passed};
ghost use Rattle.vk_ends.specs.declared.ends.CallFault.{CallFault as CallFaultOf};
ghost use Rattle.vk_cmd_lanes.specs.Inner.{lines_on};
ghost use Rattle.vk_cmd_lanes.specs.Lanes.{PrintsCall, RefusesCall, asked_of};

use crate::callee::callee_of;
use crate::command::Call;
use std::alloc::Global;
use vk_arguments::{Arguments, Integers, NoArguments, arguments_of};
use vk_ends::{CallFault, CallRule};
use vk_io::{Lines, Memory};
use vk_lane_lines::lane_lines;
use vk_one_return::Form;
use vk_rules::Checked;
use vk_selection::selected_in;
use vk_unit_call::call as call_lanes;

/// The lines of a call in an accepted unit of one function of this form, or the rule of calls that it breaks.
pub fn call_selected(
    alloc: Global,
    unit: &Checked,
    form: &Form<'_>,
    call: Call<'_>,
) -> Result<Lines, NoArguments>
    requires letter { call.isa ≡ S → ⊥ }
    requires form { IsForm (judged unit.now) (function_of form.now.function.now) (expr_of form.now.value.now) form.now.result }
    requires small { IsSmall (function_of form.now.function.now) }
    ensures lines { IfOk result (λ lines. PrintsCall (judged unit.now) (function_of form.now.function.now) (asked_of call.entry) (concat lines)) }
    ensures refused { (fault : CallFaultOf) → IsErrOf result (NoArguments.Refused fault) →
        RefusesCall (judged unit.now) (function_of form.now.function.now) (asked_of call.entry) fault.rule fault.first fault.second }
{
    let Some(selected) = selected_in(unit, call.isa, 0, call.name.as_bytes()) else {
        return Err(NoArguments::Refused(CallFault {
            rule: CallRule::A1,
            first: 0,
            second: 0,
        }));
    };
    let callee = callee_of(unit, selected);
    match arguments_of(alloc, &Integers, &callee, call.mask, call.arguments) {
        Ok(arguments) => match lines_of(alloc, form, call.turns, &arguments) {
            Ok(lines) => Ok(lines),
            Err(Memory) => Err(NoArguments::Memory),
        },
        Err(fail) => Err(fail),
    }
}

// The lines of a call on these arguments.
fn lines_of(
    alloc: Global,
    form: &Form<'_>,
    turns: u32,
    arguments: &Arguments,
) -> Result<Lines, Memory>
    requires returns { IsReturn (function_of form.now.function.now) (expr_of form.now.value.now) form.now.result }
    requires small { IsSmall (function_of form.now.function.now) }
    requires lanes { 0 < lane_count arguments.now.mask }
    requires words { length arguments.now.words.items ≡ length form.now.function.now.params.items * lane_count arguments.now.mask }
    requires typed { AreTyped (types_of form.now.function.now.params.items) [] (lane_count arguments.now.mask) (passed (lane_count arguments.now.mask) arguments.now.words.items) (is_on arguments.now.mask) }
    ensures { (unit : Subject) → IsForm unit (function_of form.now.function.now) (expr_of form.now.value.now) form.now.result → IfOk result (λ lines.
        lines ≡ lines_on unit (function_of form.now.function.now) turns (lane_count arguments.now.mask) (is_on arguments.now.mask) (passed (lane_count arguments.now.mask) arguments.now.words.items)) }
{
    let Arguments { mask, words } = arguments;
    let results = call_lanes(alloc, form, turns, mask, words)?;
    lane_lines(
        alloc,
        Some(form.result),
        mask,
        &results.words,
        &results.stops,
    )
}
