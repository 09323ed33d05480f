// The rules on declarations of functions: C8, C13, C16, C17, C18.

ghost use Rattle.std.specs.Prelude.{◌≡◌, ◌&&◌, ◌||◌};
ghost use Rattle.vk_ast.specs.Units.{function, function_of};
ghost use Rattle.vk_rules_book.specs.Faults.{first_among};
ghost use Rattle.vk_rules_book.specs.Items.{is_wrong_main, is_wrong_print, item_faults};
ghost use Rattle.vk_rules_book.specs.Scopes.{is_main, is_print};
ghost use Rattle.vk_rules_items.specs.Inner.Known.{IsSeen, IsSurvey, before_of, unit_items};

use crate::costs::passes;
use crate::redeclarations::is_wrong_function;
use crate::seen::Seen;
use crate::sizes::is_too_large;
use crate::survey::Survey;
use crate::types::{is_wrong_main, is_wrong_print};
use vk_ast::Function;
use vk_rules_names::{Note, Scopes, fault_at};
use vk_unit_rules::UnitRule;

// C8: whether a function has the name `print` or `main`, and is not what these are.
fn is_wrong_name(scope: &Scopes, f: &Function) -> bool
    ensures { result ≡ ((is_print scope.now.names.now f.now.name && is_wrong_print (function_of f.now))
        || (is_main scope.now.names.now f.now.name && is_wrong_main (function_of f.now))) }
{
    (scope.is_print(f.name) && is_wrong_print(f)) || (scope.is_main(f.name) && is_wrong_main(f))
}

/// Judges a declaration of a function.
#[tactic(auto, using(vk_rules_book::proofs::Noting::among_append), unfolding(vk_rules_book::specs::Items::item_faults))]
pub fn judge_function(survey: &Survey, seen: &Seen, f: &Function, note: &mut Note)
    requires survey { IsSurvey survey.now }
    requires seen { IsSeen survey.now seen.now }
    ensures { note.new.first ≡ first_among note.old.first (item_faults survey.now.names.now (unit_items survey.now) (before_of survey.now seen.now) (function (function_of f.now))) }
{
    let scope = seen.scope(survey);
    note.add(
        is_wrong_name(&scope, f),
        fault_at(f.line, f.token, UnitRule::C8),
    );
    note.add(
        is_wrong_function(survey, seen, f),
        fault_at(f.line, f.token, UnitRule::C13),
    );
    note.add(
        scope.is_long(f.name),
        fault_at(f.line, f.token, UnitRule::C16),
    );
    note.add(
        passes(survey, seen, f),
        fault_at(f.line, f.token, UnitRule::C17),
    );
    note.add(is_too_large(f), fault_at(f.line, f.token, UnitRule::C18));
}
