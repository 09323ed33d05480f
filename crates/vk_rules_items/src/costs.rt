// The rule C17: what the variants of functions cost.

ghost use Rattle.std.specs.Prelude.{◌≡◌, ◌+◌, ◌&&◌, nat_le, nat_lt};
ghost use Rattle.vk_ast.specs.Units.{function, function_of, item_of};
ghost use Rattle.vk_rules_book.specs.Items.{cost, cost_at, definition_in, passes, weight};
ghost use Rattle.vk_rules_items.specs.Inner.Counts.{up_to_limit};
ghost use Rattle.vk_rules_items.specs.Inner.Known.{IsSeen, IsSurvey, before_of, unit_items};

use crate::seen::Seen;
use crate::survey::Survey;
use crate::tables::number_of;
use vk_ast::{Function, Item, function_nodes};

/// The functions of a unit cost at most this much. Sums are kept up to one more.
pub const MAX_COST: u32 = 40000;

// The nodes of a function's definition and 16, or those of its declaration where there is none.
#[tactic(auto, using(crate::proofs::Limits::told_nodes, crate::proofs::Limits::told_weight))]
fn weight(survey: &Survey, f: &Function) -> usize
    requires { IsSurvey survey.now }
    ensures { up_to_limit result ≡ up_to_limit (weight (function_of f.now) (definition_in (unit_items survey.now) f.now.name)) }
{
    match number_of(&survey.nodes, f.name) {
        Some(nodes) => nodes.saturating_add(16),
        None => function_nodes(f) as usize,
    }
}

// What the variants of a function cost that is declared here first.
fn cost(survey: &Survey, f: &Function) -> u32
    requires { IsSurvey survey.now }
    ensures { result ≡ up_to_limit (cost (unit_items survey.now) (function_of f.now)) }
{
    let declarations = f.directives.len().saturating_add(1);
    let whole = declarations.saturating_mul(weight(survey, f));
    whole.min(MAX_COST as usize + 1) as u32
}

// What the next item adds to the sum, which is a function: nothing where it was declared before.
fn cost_at<'a>(survey: &'a Survey<'a>, seen: &'a Seen, f: &Function) -> u32
    requires survey { IsSurvey survey.now }
    requires seen { IsSeen survey.now seen.now }
    ensures { result ≡ up_to_limit (cost_at survey.now.names.now (unit_items survey.now) (before_of survey.now seen.now) (function (function_of f.now))) }
{
    if number_of(&seen.first, f.name).is_some() {
        return 0;
    }
    if seen.scope(survey).is_print(f.name) {
        return 0;
    }
    cost(survey, f)
}

// Whether a sum that does not pass the limit passes it with this cost.
fn passes_with(sum: u32, cost: u32) -> bool
    ensures { result ≡ (nat_le sum 40000 && nat_lt 40000 (sum + cost)) }
{
    sum <= MAX_COST && sum.saturating_add(cost) > MAX_COST
}

/// C17: whether the sum passes its limit with the next item, which is a function.
pub fn passes<'a>(survey: &'a Survey<'a>, seen: &'a Seen, f: &Function) -> bool
    requires survey { IsSurvey survey.now }
    requires seen { IsSeen survey.now seen.now }
    ensures { result ≡ passes survey.now.names.now (unit_items survey.now) (before_of survey.now seen.now) (function (function_of f.now)) }
{
    passes_with(seen.cost, cost_at(survey, seen, f))
}

/// What the next item adds to the sum.
pub fn cost_of(survey: &Survey, seen: &Seen, item: &Item) -> u32
    requires survey { IsSurvey survey.now }
    requires seen { IsSeen survey.now seen.now }
    ensures { result ≡ up_to_limit (cost_at survey.now.names.now (unit_items survey.now) (before_of survey.now seen.now) (item_of item.now)) }
{
    match item {
        Item::Function(f) => cost_at(survey, seen, f),
        Item::Object(_) => 0,
        Item::Lost(_) => 0,
    }
}
