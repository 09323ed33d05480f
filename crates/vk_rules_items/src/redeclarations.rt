// The rule C13: whether a declaration agrees with the first one of its name.

ghost use Rattle.std.specs.Prelude.{◌≡◌, ◌&&◌, ◌||◌, slice_get};
ghost use Rattle.std.specs.Option.{option_and_then, option_map};
ghost use Rattle.vk_ast.specs.Units.{function, function_of, item_of, object, object_of};
ghost use Rattle.vk_rules_book.specs.Items.{agrees, disagrees, is_wrong_again, length_of, lengths_differ};
ghost use Rattle.vk_rules_items.specs.Inner.Counts.{length_of_item};
ghost use Rattle.vk_rules_items.specs.Inner.Known.{IsSeen, IsSurvey, before_of};

use crate::seen::Seen;
use crate::survey::Survey;
use crate::tables::number_of;
use crate::types::{same_ctype, same_types};
use vk_ast::{Function, Item, Object};

fn lengths_differ(a: Option<u32>, b: Option<u32>) -> bool
    ensures { result ≡ lengths_differ a b }
{
    match (a, b) {
        (Some(m), Some(n)) => m != n,
        _ => false,
    }
}

// Whether a declaration of a function agrees with an item that declares its name first.
fn agrees_function(first: &Item, f: &Function) -> bool
    ensures { result ≡ agrees (item_of first.now) (function (function_of f.now)) }
{
    match first {
        Item::Function(g) => same_ctype(g.result, f.result) && same_types(&g.params, &f.params),
        Item::Object(_) => false,
        Item::Lost(_) => false,
    }
}

// Whether two objects of these lengths agree.
fn same_objects(o: &Object, first_length: Option<u32>, p: &Object, length: Option<u32>) -> bool
    requires first { first_length ≡ length_of (object_of o.now) }
    requires again { length ≡ length_of (object_of p.now) }
    ensures { result ≡ agrees (object (object_of o.now)) (object (object_of p.now)) }
{
    (o.ty == p.ty && o.fixed == p.fixed)
        && (o.array.is_some() == p.array.is_some() && !lengths_differ(first_length, length))
}

// Whether a declaration of an object agrees with an item of this length that declares its name first.
fn agrees_object(first: &Item, first_length: Option<u32>, o: &Object, length: Option<u32>) -> bool
    requires first { first_length ≡ length_of_item (item_of first.now) }
    requires again { length ≡ length_of (object_of o.now) }
    ensures { result ≡ agrees (item_of first.now) (object (object_of o.now)) }
{
    match first {
        Item::Function(_) => false,
        Item::Object(p) => same_objects(p, first_length, o, length),
        Item::Lost(_) => false,
    }
}

// Whether a declaration of a function disagrees with the item with this number.
fn disagrees_function(survey: &Survey, first: Option<usize>, f: &Function) -> bool
    ensures { result ≡ disagrees (option_and_then (λ n. option_map item_of (slice_get survey.now.items.now n)) first) (function (function_of f.now)) }
{
    let Some(number) = first else {
        return false;
    };
    match survey.items.get(number) {
        Some(item) => !agrees_function(item, f),
        None => false,
    }
}

// Whether a declaration of an object disagrees with the item with this number.
fn disagrees_object(survey: &Survey, first: Option<usize>, o: &Object, length: Option<u32>) -> bool
    requires survey { IsSurvey survey.now }
    requires length { length ≡ length_of (object_of o.now) }
    ensures { result ≡ disagrees (option_and_then (λ n. option_map item_of (slice_get survey.now.items.now n)) first) (object (object_of o.now)) }
{
    let Some(number) = first else {
        return false;
    };
    if number >= survey.items.len() {
        return false;
    }
    !agrees_object(&survey.items[number], survey.lengths[number], o, length)
}

// Whether a declaration disagrees with the first one, or defines what is defined.
fn is_wrong(disagrees: bool, defines: bool, defined: bool) -> bool
    ensures { result ≡ (disagrees || (defines && defined)) }
{
    disagrees || (defines && defined)
}

/// C13: a declaration of a function that disagrees with the first one of its name, or a second definition.
pub fn is_wrong_function(survey: &Survey, seen: &Seen, f: &Function) -> bool
    requires { IsSeen survey.now seen.now }
    ensures { result ≡ is_wrong_again (before_of survey.now seen.now) f.now.name (function (function_of f.now)) }
{
    let disagrees = disagrees_function(survey, number_of(&seen.first, f.name), f);
    let defined = number_of(&seen.defined, f.name).is_some();
    is_wrong(disagrees, f.body.is_some(), defined)
}

/// C13: a declaration of an object of this length that disagrees with the first one of its name, or a second definition.
pub fn is_wrong_object(survey: &Survey, seen: &Seen, o: &Object, length: Option<u32>) -> bool
    requires survey { IsSurvey survey.now }
    requires seen { IsSeen survey.now seen.now }
    requires length { length ≡ length_of (object_of o.now) }
    ensures { result ≡ is_wrong_again (before_of survey.now seen.now) o.now.name (object (object_of o.now)) }
{
    let disagrees = disagrees_object(survey, number_of(&seen.first, o.name), o, length);
    let defined = number_of(&seen.defined, o.name).is_some();
    is_wrong(disagrees, !o.outside, defined)
}
