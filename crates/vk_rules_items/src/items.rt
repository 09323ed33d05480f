// The items of a unit, one after another.

ghost use Rattle.std.specs.Prelude.{◌≡◌, ◌<◌, ◌+◌, [], map, length, OnOk, get_or};
ghost use Rattle.vk_ast.specs.Units.{item_of};
ghost use Rattle.vk_rules_book.specs.Noting.{found};
ghost use Rattle.vk_rules_book.specs.Visits.{along, item_part};
ghost use Rattle.vk_rules_items.specs.Inner.Counts.{length_of_item};
ghost use Rattle.vk_rules_items.specs.Inner.Known.{IsSeen, IsSurvey, before_of, judged, unit_items};
ghost use Rattle.vk_rules_items.specs.Inner.Parts.{back_part, front_part};

use crate::functions::judge_function;
use crate::objects::{judge_initialiser, judge_length, judge_object};
use crate::seen::Seen;
use crate::survey::{Survey, survey_of};
use std::alloc::Global;
use vk_ast::{Item, Memory, NameTable};
use vk_kinds::Target;
use vk_rules_names::{Note, fault_with};
use vk_unit_rules::UnitRule;

// Judges the next item, and the length of an array, before it is declared.
fn judge_front(survey: &Survey, seen: &Seen, item: &Item, length: Option<u32>, note: &mut Note)
    requires survey { IsSurvey survey.now }
    requires seen { IsSeen survey.now seen.now }
    requires length { length ≡ length_of_item (item_of item.now) }
    ensures { note.new.first ≡ found (judged survey.now) note.old.first (front_part survey.now.names.now (before_of survey.now seen.now) (item_of item.now)) }
{
    match item {
        Item::Function(f) => judge_function(survey, seen, f, note),
        Item::Object(o) => {
            judge_object(survey, seen, o, length, note);
            judge_length(&seen.scope(survey), &o.array, note);
        }
        Item::Lost(d) => note.add(true, fault_with(d.line, d.token, UnitRule::D12, d.number)),
    }
}

// Judges the initialiser of an item behind its declaration.
fn judge_back(survey: &Survey, seen: &Seen, item: &Item, length: Option<u32>, note: &mut Note)
    requires seen { IsSeen survey.now seen.now }
    requires length { length ≡ length_of_item (item_of item.now) }
    ensures { note.new.first ≡ found (judged survey.now) note.old.first (back_part survey.now.names.now (before_of survey.now seen.now) (item_of item.now)) }
{
    match item {
        Item::Function(_) => {}
        Item::Object(o) => judge_initialiser(&seen.scope(survey), o, length, note),
        Item::Lost(_) => {}
    }
}

// Judges the next item.
fn judge_item(survey: &Survey, seen: &mut Seen, item: &Item, note: &mut Note) -> Result<(), Memory>
    requires within { seen.old.number < length survey.now.items.now }
    requires item { item.now ≡ get_or survey.now.items.now seen.old.number item.now }
    requires survey { IsSurvey survey.now }
    requires seen { IsSeen survey.now seen.old }
    ensures number { OnOk result (seen.new.number ≡ seen.old.number + 1) }
    ensures seen { OnOk result (IsSeen survey.now seen.new) }
    ensures noted { OnOk result (note.new.first ≡ found (judged survey.now) note.old.first
        (item_part survey.now.names.now (before_of survey.now seen.old) (item_of item.now))) }
{
    let length = survey.lengths[seen.number];
    judge_front(survey, seen, item, length, note);
    seen.add(survey, item)?;
    judge_back(survey, seen, item, length, note);
    Ok(())
}

/// Judges the items of a unit, with the lengths and initialisers of its objects.
pub fn judge_items(
    alloc: Global,
    target: Target,
    names: &NameTable,
    items: &[Item],
    note: &mut Note,
) -> Result<(), Memory>
    ensures { OnOk result (note.new.first ≡ found (record { items = map item_of items.now; texts = names.now; target = target }) note.old.first
        (along (item_part names.now) [] (map item_of items.now))) }
{
    let survey = survey_of(alloc, target, names, items)?;
    let mut seen = Seen::nothing(alloc, &survey)?;
    for item in items {
        judge_item(&survey, &mut seen, item, note)?;
    }
    Ok(())
}
