// Which functions a unit defines.

ghost use Rattle.std.specs.Prelude.{◌≡◌};
ghost use Rattle.std.specs.Str.{bytes_eq};
ghost use Rattle.vk_ast.specs.Units.{item_of, items_of};
ghost use Rattle.vk_rules_book.specs.Scopes.{text_of};
ghost use Rattle.vk_selection.specs.Selection.{is_defined, is_definition};

use vk_ast::{Item, NameId, Unit};

/// Whether a unit defines a function with this name.
pub fn is_defined(unit: &Unit, name: &[u8]) -> bool
    ensures { result ≡ is_defined unit.now.names (items_of unit.now) name.now }
{
    for number in 0..unit.items.len() {
        if is_definition(unit, &unit.items[number], name) {
            return true;
        }
    }
    false
}

// Whether an item of the unit defines it.
fn is_definition(unit: &Unit, item: &Item, name: &[u8]) -> bool
    ensures { result ≡ is_definition unit.now.names name.now (item_of item.now) }
{
    match item {
        Item::Function(function) => {
            function.body.is_some() && is_same(text(unit, function.name), name)
        }
        Item::Object(_) => false,
        Item::Lost(_) => false,
    }
}

/// Whether two texts have the same bytes.
pub fn is_same(left: &[u8], right: &[u8]) -> bool
    ensures { result ≡ bytes_eq left.now right.now }
{
    left == right
}

// The text of a name, empty where the unit has none.
fn text(unit: &Unit, id: NameId) -> &[u8]
    ensures { result.now ≡ text_of unit.now.names id }
{
    if (id.0 as usize) < unit.names.len() {
        unit.names.text(id)
    } else {
        &[]
    }
}
