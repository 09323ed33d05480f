// Where variables are.

ghost use Rattle.std.specs.Prelude.{◌≡◌, cond, None, Some};
ghost use Rattle.vk_rules_book.specs.Scopes.{same_name};
ghost use Rattle.vk_flat_pointers.specs.Homes.{home_named};

use vk_ast::NameId;
use vk_flat::Place;
use vk_types::Ty;

/// A register and the type of the elements that the pointer in it points to; whether these may be written, and whether what may be
/// done with the pointer may be done with one to any other element.
#[derive(Clone, Copy, PartialEq, Eq, Debug)]
pub struct Pointer {
    pub register: u16,
    pub to: Ty,
    pub written: bool,
    pub moves: bool,
}

/// Where a variable is: a number or a pointer in a register.
#[derive(Clone, Copy, PartialEq, Eq, Debug)]
pub enum Home {
    Number(Place),
    Pointer(Pointer),
}

/// A parameter or a local variable.
#[derive(Clone, Copy, PartialEq, Eq, Debug)]
pub struct Named {
    pub name: NameId,
    pub home: Home,
}

/// The home of the last one with this name.
pub fn home_named(names: &[Named], id: NameId) -> Option<Home>
    ensures { result ≡ home_named names.now id }
{
    let [first, rest @ ..] = names else {
        return None;
    };
    match home_named(rest, id) {
        Some(home) => Some(home),
        None => alone(first, id),
    }
}

// The home, where the variable has this name.
fn alone(named: &Named, id: NameId) -> Option<Home>
    ensures { result ≡ cond (same_name named.now.name id) (Some named.now.home) None }
{
    if named.name.0 == id.0 {
        Some(named.home)
    } else {
        None
    }
}
