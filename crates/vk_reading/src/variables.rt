// The variables of a function.

ghost use Rattle.std.specs.Prelude.{◌≡◌, ◌+◌, ◌^◌, ◌<◌, length};
ghost use Rattle.vk_meaning.specs.Points.{variable_among};
ghost use Rattle.vk_reading.specs.Variables.{found_in};

use vk_ast::NameId;
use vk_kinds::CType;
use vk_rules_book::Binding;

/// A parameter or local variable: its number among those that are visible, and its type.
#[derive(Clone, Copy, PartialEq, Eq, Debug)]
pub struct Variable {
    pub number: usize,
    pub ctype: CType,
}

/// The variable that a name means among these, which are numbered from `first` on: the last one of that name (C17 6.2.1).
pub fn variable_among(first: usize, bindings: &[Binding], name: NameId) -> Option<Variable>
    requires { first + length bindings.now < 2 ^ 64 }
    ensures { found_in result ≡ variable_among first bindings.now name }
{
    let [b, later @ ..] = bindings else {
        return None;
    };
    let found = variable_among(first + 1, later, name);
    if found.is_some() || b.name != name {
        return found;
    }
    Some(Variable {
        number: first,
        ctype: b.ctype,
    })
}
