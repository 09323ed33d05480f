// The rules on objects: C8, C11, C12, C13, C16, and those on the expressions in their lengths and initialisers.

ghost use Rattle.std.specs.Prelude.{◌≡◌, ◌||◌, [], map, is_none};
ghost use Rattle.std.specs.Option.{option_map};
ghost use Rattle.vk_ast.specs.Tree.{expr_of};
ghost use Rattle.vk_ast.specs.Units.{object, object_of};
ghost use Rattle.vk_numbers.specs.Constants.{constant_of};
ghost use Rattle.vk_rules_book.specs.declared.contexts.Role.TheVariants.{Value};
ghost use Rattle.vk_rules_book.specs.Faults.{first_among};
ghost use Rattle.vk_rules_book.specs.Items.{has_no_length, has_wrong_initialiser, initial_faults, is_bare_initialiser, is_past, item_faults, length_of};
ghost use Rattle.vk_rules_book.specs.Noting.{found};
ghost use Rattle.vk_rules_book.specs.Visits.{at_file_scope, initial_visits, initialiser_visits, length_visits, visits_of};
ghost use Rattle.vk_rules_names.specs.Seen.{scope_of, unit_in};
ghost use Rattle.vk_rules_items.specs.Inner.Known.{IsSeen, IsSurvey, before_of, unit_items};

use crate::redeclarations::is_wrong_object;
use crate::seen::Seen;
use crate::survey::Survey;
use vk_ast::{Expr, Object};
use vk_kinds::CType;
use vk_numbers::constant_of;
use vk_rules_book::{Around, Role};
use vk_rules_expr::judge_in_role;
use vk_rules_names::{Note, Scopes, fault_at};
use vk_unit_rules::UnitRule;

// What is around an expression at file scope.
fn at_file_scope() -> Around
    ensures { result ≡ at_file_scope }
{
    Around {
        directive: 0,
        result: CType::Void,
        in_loop: false,
    }
}

// Whether an array has an initialiser without braces, and else no length.
fn is_bare_initialiser(o: &Object) -> bool
    ensures { result ≡ is_bare_initialiser (object_of o.now).array (object_of o.now).init o.now.braced }
{
    match (&o.array, &o.init) {
        (Some(None), Some(_)) => !o.braced,
        _ => false,
    }
}

// C12: whether an array of this length has none.
fn has_no_length(o: &Object, length: Option<u32>) -> bool
    requires { length ≡ length_of (object_of o.now) }
    ensures { result ≡ has_no_length (object_of o.now) }
{
    o.array.is_some() && (length.is_none() && !is_bare_initialiser(o))
}

// C11: whether an initialiser is on an `extern` object, in braces on a scalar, or without them on an array.
fn has_wrong_initialiser(o: &Object) -> bool
    ensures { result ≡ has_wrong_initialiser (object_of o.now) }
{
    o.init.is_some() && (o.outside || o.braced != o.array.is_some())
}

/// Judges a declaration of an object of this length.
#[tactic(auto, using(vk_rules_book::proofs::Noting::among_append), unfolding(vk_rules_book::specs::Items::item_faults))]
pub fn judge_object(survey: &Survey, seen: &Seen, o: &Object, length: Option<u32>, note: &mut Note)
    requires survey { IsSurvey survey.now }
    requires seen { IsSeen survey.now seen.now }
    requires length { length ≡ length_of (object_of o.now) }
    ensures { note.new.first ≡ first_among note.old.first (item_faults survey.now.names.now (unit_items survey.now) (before_of survey.now seen.now) (object (object_of o.now))) }
{
    let scope = seen.scope(survey);
    note.add(
        scope.is_print(o.name) || scope.is_main(o.name),
        fault_at(o.line, o.token, UnitRule::C8),
    );
    note.add(
        has_wrong_initialiser(o),
        fault_at(o.init_line, o.init_token, UnitRule::C11),
    );
    note.add(
        has_no_length(o, length),
        fault_at(o.line, o.token, UnitRule::C12),
    );
    note.add(
        is_wrong_object(survey, seen, o, length),
        fault_at(o.line, o.token, UnitRule::C13),
    );
    note.add(
        scope.is_long(o.name),
        fault_at(o.line, o.token, UnitRule::C16),
    );
}

// Judges a number at file scope, and all in it.
fn judge_number(scope: &Scopes, e: &Expr, note: &mut Note)
    ensures { note.new.first ≡ found (unit_in scope.now) note.old.first (visits_of at_file_scope (scope_of scope.now) Value (expr_of e.now)) }
{
    judge_in_role(scope, at_file_scope(), Role::Value, false, e, note);
}

/// Judges the expression that gives the length of an array, where there is one.
#[tactic(auto, using(vk_rules_book::proofs::Noting::found_none))]
pub fn judge_length(scope: &Scopes, array: &Option<Option<Expr>>, note: &mut Note)
    ensures { note.new.first ≡ found (unit_in scope.now) note.old.first (length_visits (scope_of scope.now) (option_map (option_map expr_of) array.now)) }
{
    if let Some(Some(e)) = array {
        judge_number(scope, e, note);
    }
}

fn is_past(number: usize, length: Option<u32>) -> bool
    ensures { result ≡ is_past number length }
{
    match length {
        None => false,
        Some(len) => len as usize <= number,
    }
}

// C11: whether an expression with this number is no constant, or past the end of this length.
fn is_wrong_initial(number: usize, length: Option<u32>, e: &Expr) -> bool
    ensures { result ≡ (is_none (constant_of (expr_of e.now)) || is_past number length) }
{
    constant_of(e).is_none() || is_past(number, length)
}

// What an expression with this number breaks in the initialiser of an object of this length.
#[tactic(auto, unfolding(vk_rules_book::specs::Items::initial_faults))]
fn judge_constant(o: &Object, length: Option<u32>, number: usize, e: &Expr, note: &mut Note)
    requires { length ≡ length_of (object_of o.now) }
    ensures { note.new.first ≡ first_among note.old.first (initial_faults (object_of o.now) number (expr_of e.now)) }
{
    note.add(
        is_wrong_initial(number, length, e),
        fault_at(e.line, e.token, UnitRule::C11),
    );
}

// Judges the expressions of an initialiser, one after another.
fn judge_initials(scope: &Scopes, o: &Object, length: Option<u32>, es: &[Expr], note: &mut Note)
    requires { length ≡ length_of (object_of o.now) }
    ensures { note.new.first ≡ found (unit_in scope.now) note.old.first (initial_visits (scope_of scope.now) (object_of o.now) 0 (map expr_of es.now)) }
{
    for (number, e) in es.iter().enumerate() {
        judge_constant(o, length, number, e, note);
        judge_number(scope, e, note);
    }
}

/// Judges the initialiser of an object of this length, where there is one, behind its declaration.
#[tactic(auto, using(vk_rules_book::proofs::Noting::found_none))]
pub fn judge_initialiser(scope: &Scopes, o: &Object, length: Option<u32>, note: &mut Note)
    requires { length ≡ length_of (object_of o.now) }
    ensures { note.new.first ≡ found (unit_in scope.now) note.old.first (initialiser_visits (scope_of scope.now) (object_of o.now) (object_of o.now).init) }
{
    if let Some(es) = &o.init {
        judge_initials(scope, o, length, es, note);
    }
}
