// What is known of a unit as a whole.

ghost use Rattle.std.specs.Prelude.{◌≡◌, ◌∷◌, [], map, OnOk, IfOk};
ghost use Rattle.std.specs.Option.{option_map, option_or};
ghost use Rattle.vk_ast.specs.declared.names.NameId.{NameId};
ghost use Rattle.vk_ast.specs.Units.{function, function_of, item_of};
ghost use Rattle.vk_rules_book.specs.Items.{definition_in};
ghost use Rattle.vk_rules_names.specs.Seen.{number_at};
ghost use Rattle.vk_rules_items.specs.Inner.Counts.{nodes_told};
ghost use Rattle.vk_rules_items.specs.Inner.Known.{IsSurvey, judged};

use crate::lengths::lengths_of;
use crate::tables::keep;
use std::alloc::Global;
use vk_ast::{Function, Item, Memory, NameTable, function_nodes};
use vk_kinds::Target;
use vk_rules_names::no_declarations;

/// A unit, and what is known of it as a whole.
#[derive(Drop)]
pub struct Survey<'a> {
    pub target: Target,
    pub names: &'a NameTable,
    pub items: &'a [Item],
    /// The length of each item, by its number, where it is an array and has one.
    pub lengths: Vec<Option<u32>>,
    /// For each name, by its number, the nodes of the definition of the function with this name.
    pub nodes: Vec<Option<usize>>,
}

// Notes the nodes of an item that defines a function.
fn note_nodes(nodes: &mut Vec<Option<usize>>, item: &Item) -> Result<(), Memory>
    ensures { OnOk result ((id : NameId) →
        number_at nodes.new.items id ≡ option_or (number_at nodes.old.items id) (option_map nodes_told (definition_in (item_of item.now ∷ []) id))) }
{
    match item {
        Item::Function(f) => note_function(nodes, f),
        Item::Object(_) => Ok(()),
        Item::Lost(_) => Ok(()),
    }
}

// Notes the nodes of a function that is defined.
fn note_function(nodes: &mut Vec<Option<usize>>, f: &Function) -> Result<(), Memory>
    ensures { OnOk result ((id : NameId) →
        number_at nodes.new.items id ≡ option_or (number_at nodes.old.items id) (option_map nodes_told (definition_in (function (function_of f.now) ∷ []) id))) }
{
    if f.body.is_some() {
        keep(nodes, f.name, function_nodes(f) as usize)?;
    }
    Ok(())
}

/// For each name, by its number, the nodes of the definition of the function with this name.
pub fn nodes_of_definitions(
    alloc: Global,
    items: &[Item],
    names: usize,
) -> Result<Vec<Option<usize>>, Memory>
    ensures { IfOk result (λ nodes. (id : NameId) → number_at nodes.items id ≡ option_map nodes_told (definition_in (map item_of items.now) id)) }
{
    let mut nodes = no_declarations(alloc, names)?;
    for item in items {
        note_nodes(&mut nodes, item)?;
    }
    Ok(nodes)
}

/// Surveys a unit.
pub fn survey_of<'a>(
    alloc: Global,
    target: Target,
    names: &'a NameTable,
    items: &'a [Item],
) -> Result<Survey<'a>, Memory>
    ensures tables { IfOk result (λ survey. IsSurvey survey) }
    ensures unit { IfOk result (λ survey. judged survey ≡ record { items = map item_of items.now; texts = names.now; target = target }) }
    ensures items { IfOk result (λ survey. survey.items.now ≡ items.now) }
{
    let lengths = lengths_of(alloc, items)?;
    let nodes = nodes_of_definitions(alloc, items, names.len())?;
    Ok(Survey {
        target,
        names,
        items,
        lengths,
        nodes,
    })
}
