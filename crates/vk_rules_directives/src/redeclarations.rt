// The rule on later declarations of a function, D17.

ghost use Rattle.std.specs.Prelude.{◌≡◌, ℕ, ◌<◌, List, length, map, slice_get, Some};
ghost use Rattle.std.specs.Option.{option_map};
ghost use Rattle.vk_ast.specs.Directives.{directive_of};
ghost use Rattle.vk_ast.specs.Units.{function_of, item_of};
ghost use Rattle.vk_unit_rules.specs.declared.rules.UnitRule.TheVariants.{D17};
ghost use Rattle.vk_rules_book.specs.Directives.{at_first, has_other_directives};
ghost use Rattle.vk_rules_book.specs.Faults.{first_among};
ghost use Rattle.vk_rules_names.specs.Seen.{item_at, number_at};
ghost use Rattle.vk_rules_directives.specs.Inner.Signed.{Agrees, AreOwn, AreSigned, others_at};

use crate::entries::directive_fault;
use crate::signed::{Signed, differs};
use vk_ast::{Directive, Function, Item};
use vk_rules_names::{Note, Place};
use vk_unit_rules::UnitRule;

// Whether a function's directives are others than those of an item.
fn differs_from(item: &Item, first: &Signed, f: &Function, own: &Signed) -> bool
    requires first { AreOwn first.now item.now }
    requires own { AreSigned own.now (function_of f.now) }
    ensures { result ≡ has_other_directives (Some (item_of item.now)) (function_of f.now) }
{
    match item {
        Item::Function(_g) => differs(first, own),
        Item::Object(_) => false,
        Item::Lost(_) => false,
    }
}

// Whether a function's directives are others than those of the item with this number.
fn differs_at(items: &[Item], signed: &[Signed], number: usize, f: &Function, own: &Signed) -> bool
    requires within { number < length signed.now }
    requires first { Agrees signed.now items.now }
    requires own { AreSigned own.now (function_of f.now) }
    ensures { result ≡ has_other_directives (option_map item_of (slice_get items.now number)) (function_of f.now) }
{
    if number < items.len() {
        differs_from(&items[number], &signed[number], f, own)
    } else {
        false
    }
}

// Whether a function's directives are others than those of its first declaration before this place.
fn differs_from_first(place: &Place, signed: &[Signed], f: &Function, own: &Signed) -> bool
    requires within { (n : ℕ) → number_at place.now.first.now f.now.name ≡ Some n → n < length signed.now }
    requires first { Agrees signed.now place.now.items.now }
    requires own { AreSigned own.now (function_of f.now) }
    ensures { result ≡ has_other_directives (item_at place.now.items.now place.now.first.now f.now.name) (function_of f.now) }
{
    match place.first.get(f.name.0 as usize) {
        Some(Some(number)) => differs_at(place.items, signed, *number, f, own),
        Some(None) | None => false,
    }
}

// Notes that D17 is broken, with the first of these directives.
#[tactic(auto, using(vk_rules_book::proofs::Noting::among_none))]
fn note_first(directives: &[Directive], token: u32, note: &mut Note)
    ensures { note.new.first ≡ first_among note.old.first (at_first D17 token (map directive_of directives.now)) }
{
    match directives {
        [] => {}
        [d, ..] => note.add(true, directive_fault(d, token, UnitRule::D17)),
    }
}

// Judges the directives of a function against those of its first declaration before this place.
#[tactic(auto, using(vk_rules_book::proofs::Noting::among_none))]
pub(crate) fn judge_redeclaration(
    place: &Place,
    signed: &[Signed],
    f: &Function,
    own: &Signed,
    note: &mut Note,
)
    requires within { (n : ℕ) → number_at place.now.first.now f.now.name ≡ Some n → n < length signed.now }
    requires first { Agrees signed.now place.now.items.now }
    requires own { AreSigned own.now (function_of f.now) }
    ensures { note.new.first ≡ first_among note.old.first (others_at (item_at place.now.items.now place.now.first.now f.now.name) (function_of f.now)) }
{
    let other = differs_from_first(place, signed, f, own);
    if other {
        note_first(&f.directives, f.token, note);
    }
}
