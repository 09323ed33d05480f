// The lengths of arrays.

ghost use Rattle.std.specs.Prelude.{◌≡◌, map, true, IfOk, Some, None};
ghost use Rattle.std.specs.Option.{option_map};
ghost use Rattle.vk_ast.specs.Tree.{expr_of};
ghost use Rattle.vk_ast.specs.Units.{item_of, object_of};
ghost use Rattle.vk_rules_book.specs.Items.{given_length, length_of};
ghost use Rattle.vk_rules_items.specs.Inner.Counts.{length_of_item};

use std::alloc::Global;
use vk_ast::{Expr, Item, Memory, Object};
use vk_numbers::constant_to;

/// An array has at most this many elements.
const MAX_LENGTH: u32 = 16777216;

// The length that this many expressions in braces give.
fn counted(es: &[Expr]) -> Option<u32>
    ensures { result ≡ given_length None (Some (map expr_of es.now)) true }
{
    if 1 <= es.len() && es.len() <= MAX_LENGTH as usize {
        Some(es.len() as u32)
    } else {
        None
    }
}

// The length of an array: as given, or that of its initialiser in braces.
fn given_length(given: &Option<Expr>, init: &Option<Vec<Expr>>, braced: bool) -> Option<u32>
    ensures { result ≡ given_length (option_map expr_of given.now) (option_map (λ es. map expr_of es.items) init.now) braced }
{
    if let Some(e) = given {
        return constant_to(MAX_LENGTH, e);
    }
    match init {
        Some(es) if braced => counted(es),
        _ => None,
    }
}

/// The length of an object that is an array, where it has one from 1 to 16777216.
#[tactic(auto, unfolding(vk_rules_book::specs::Items::length_of))]
pub fn length_of(o: &Object) -> Option<u32>
    ensures { result ≡ length_of (object_of o.now) }
{
    match &o.array {
        Some(given) => given_length(given, &o.init, o.braced),
        None => None,
    }
}

// The length of an item that is an array.
fn length_of_item(item: &Item) -> Option<u32>
    ensures { result ≡ length_of_item (item_of item.now) }
{
    match item {
        Item::Function(_) => None,
        Item::Object(o) => length_of(o),
        Item::Lost(_) => None,
    }
}

/// The length of each item, where it is an array and has one.
pub fn lengths_of(alloc: Global, items: &[Item]) -> Result<Vec<Option<u32>>, Memory>
    ensures { IfOk result (λ lengths. lengths.items ≡ map length_of_item (map item_of items.now)) }
{
    let mut lengths = Vec::new(alloc);
    for item in items {
        lengths.push(length_of_item(item))?;
    }
    Ok(lengths)
}
