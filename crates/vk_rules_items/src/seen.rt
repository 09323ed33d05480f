// What is known of the items before one.

ghost use Rattle.std.specs.Prelude.{◌≡◌, ◌<◌, ◌+◌, ◌&&◌, length, cond, not, is_some, IfOk, OnOk, Some, None, get_or};
ghost use Rattle.std.specs.Option.{option_or};
ghost use Rattle.vk_ast.specs.declared.names.NameId.{NameId};
ghost use Rattle.vk_ast.specs.Units.{item_of};
ghost use Rattle.vk_rules_book.specs.Items.{defines};
ghost use Rattle.vk_rules_book.specs.Scopes.{file_scope, same_name};
ghost use Rattle.vk_rules_names.specs.Seen.{number_at, scope_of, unit_in};
ghost use Rattle.vk_rules_items.specs.Inner.Known.{IsSeen, IsSurvey, before_of, judged};

use crate::costs::{MAX_COST, cost_of};
use crate::survey::Survey;
use crate::tables::keep;
use std::alloc::Global;
use vk_ast::{Item, Memory, NameId};
use vk_rules_names::{Place, Scopes, declare_next, no_declarations};

/// What is known of the items before one.
#[derive(Drop)]
pub struct Seen {
    /// The number of that item.
    pub number: usize,
    /// For each name, by its number, the number of the first item that declares it.
    pub first: Vec<Option<usize>>,
    /// For each name, by its number, the number of the first item that defines it.
    pub defined: Vec<Option<usize>>,
    /// The sum of the costs, up to one more than its limit.
    pub cost: u32,
}

// Notes what an item defines.
fn note_definition(
    defined: &mut Vec<Option<usize>>,
    item: &Item,
    number: usize,
) -> Result<(), Memory>
    ensures { OnOk result ((id : NameId) →
        number_at defined.new.items id ≡ option_or (number_at defined.old.items id) (cond (defines id (item_of item.now)) (Some number) None)) }
{
    match item {
        Item::Function(f) => note_where(defined, f.body.is_some(), f.name, number),
        Item::Object(o) => note_where(defined, !o.outside, o.name, number),
        Item::Lost(_) => Ok(()),
    }
}

// Notes a number for a name where it is defined.
fn note_where(
    defined: &mut Vec<Option<usize>>,
    is_definition: bool,
    id: NameId,
    number: usize,
) -> Result<(), Memory>
    ensures { OnOk result ((other : NameId) →
        number_at defined.new.items other ≡ option_or (number_at defined.old.items other) (cond (same_name id other && is_definition) (Some number) None)) }
{
    if is_definition {
        keep(defined, id, number)?;
    }
    Ok(())
}

impl Seen {
    /// Before the first item, in tables with room for so many names.
    pub fn nothing(alloc: Global, survey: &Survey) -> Result<Seen, Memory>
        ensures seen { IfOk result (λ seen. IsSeen survey.now seen) }
        ensures number { IfOk result (λ seen. seen.number ≡ 0) }
    {
        let names = survey.names.len();
        let first = no_declarations(alloc, names)?;
        let defined = no_declarations(alloc, names)?;
        Ok(Seen {
            number: 0,
            first,
            defined,
            cost: 0,
        })
    }

    /// The scope at file scope behind these items.
    pub fn scope<'a>(&'a self, survey: &'a Survey<'a>) -> Scopes<'a>
        requires { IsSeen survey.now self.now }
        ensures unit { unit_in result ≡ judged survey.now }
        ensures names { result.names.now ≡ survey.now.names.now }
        ensures scope { scope_of result ≡ file_scope survey.now.names.now (before_of survey.now self.now) }
    {
        let place = Place {
            target: survey.target,
            names: survey.names,
            items: survey.items,
            first: &self.first,
        };
        place.with(&[], 0)
    }

    /// Goes on behind the next item.
    pub fn add(&mut self, survey: &Survey, item: &Item) -> Result<(), Memory>
        requires within { self.old.number < length survey.now.items.now }
        requires survey { IsSurvey survey.now }
        requires seen { IsSeen survey.now self.old }
        requires item { item.now ≡ get_or survey.now.items.now self.old.number item.now }
        ensures number { OnOk result (self.new.number ≡ self.old.number + 1) }
        ensures seen { OnOk result (IsSeen survey.now self.new) }
    {
        let cost = cost_of(survey, self, item);
        declare_next(&mut self.first, survey.items, self.number)?;
        note_definition(&mut self.defined, item, self.number)?;
        self.cost = self.cost.saturating_add(cost).min(MAX_COST + 1);
        self.number += 1;
        Ok(())
    }
}
