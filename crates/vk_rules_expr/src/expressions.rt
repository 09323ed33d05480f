// The rules on expressions: C8, C9, C10, C16, D15 and D16.

ghost use Rattle.std.specs.Prelude.{◌≡◌, ◌&&◌};
ghost use Rattle.vk_ast.specs.Tree.{expr_of, exprs_of};
ghost use Rattle.vk_numbers.specs.Types.{unary_type};
ghost use Rattle.vk_rules_book.specs.declared.typings.Typing.{Typing};
ghost use Rattle.vk_rules_book.specs.declared.typings.Typing.TheVariants.{Number, Cell};
ghost use Rattle.vk_rules_book.specs.Faults.{first_among};
ghost use Rattle.vk_rules_book.specs.Expressions.{call_faults, called_faults, is_wrong_call, expression_faults, has_form_of_place, is_simd, is_wrong_place, name_faults};
ghost use Rattle.vk_rules_book.specs.Noting.{found};
ghost use Rattle.vk_rules_book.specs.Scopes.{meaning_of};
ghost use Rattle.vk_rules_book.specs.Typings.{are_arguments, is_argument, is_typed, call_typing, typing_of, typings_of, wanted_types, pointed_typing, element_typing, unary_typing, cast_typing, choice_typing};
ghost use Rattle.vk_rules_book.specs.Visits.{argument_visits, is_zero, parts_of, with_role};
ghost use Rattle.vk_rules_names.specs.Seen.{meaning_seen, scope_of, unit_in};

use crate::typing::{
    binary_typing, is_argument, is_typed, left_role, lets_written, may_be_assigned,
    may_have_address, number_type, right_role, takes, with_address,
};
use vk_ast::{Expr, ExprKind, NameId, UnOp};
use vk_kinds::CType;
use vk_numbers::unary_type;
use vk_rules_book::{Around, Role, Typing};
use vk_rules_names::{Known, Note, Scopes, fault_at, fault_with};
use vk_types::{Ty, common};
use vk_unit_rules::UnitRule;

/// In the body of a function with directives.
pub fn is_simd(around: Around) -> bool
    ensures { result ≡ is_simd around }
{
    around.directive != 0
}

fn has_form_of_place(e: &Expr) -> bool
    ensures { result ≡ has_form_of_place (expr_of e.now) }
{
    matches!(
        &e.kind,
        ExprKind::Name(_) | ExprKind::Index(_, _) | ExprKind::Deref(_)
    )
}

fn is_wrong_place(role: Role, e: &Expr, t: Typing) -> bool
    ensures { result ≡ is_wrong_place role (expr_of e.now) t }
{
    match role {
        Role::Place => !(has_form_of_place(e) && may_be_assigned(t)),
        Role::Address => !(has_form_of_place(e) && may_have_address(t)),
        _ => false,
    }
}

fn is_zero(e: &Expr) -> bool
    ensures { result ≡ is_zero (expr_of e.now) }
{
    match &e.kind {
        ExprKind::Int(_, n) => *n == 0,
        _ => false,
    }
}

// What a name breaks that stands as an expression.
#[tactic(auto, using(vk_rules_book::proofs::Noting::among_append))]
fn judge_name(
    scope: &Scopes,
    around: Around,
    role: Role,
    line: u32,
    token: u32,
    id: NameId,
    note: &mut Note,
)
    ensures { note.new.first ≡ first_among note.old.first (name_faults scope.now.names.now around role line token id (meaning_of (scope_of scope.now) id)) }
{
    let known = scope.meaning(id);
    note.add(known.is_undeclared(), fault_at(line, token, UnitRule::C8));
    note.add(scope.is_long(id), fault_at(line, token, UnitRule::C16));
    note.add(
        is_simd(around) && known.is_changing(),
        fault_with(line, token, UnitRule::D15, around.directive),
    );
    note.add(
        is_simd(around) && (known.is_written_parameter() && !lets_written(role)),
        fault_with(line, token, UnitRule::D16, around.directive),
    );
}

// What an expression of this type breaks in its role, apart from what is in it.
#[tactic(auto, using(vk_rules_book::proofs::Noting::among_append), unfolding(vk_rules_book::specs::Expressions::expression_faults))]
fn judge(scope: &Scopes, around: Around, role: Role, e: &Expr, t: Typing, note: &mut Note)
    requires { t ≡ typing_of (scope_of scope.now) (expr_of e.now) }
    ensures { note.new.first ≡ first_among note.old.first (expression_faults scope.now.names.now around (scope_of scope.now) role (expr_of e.now)) }
{
    note.add(!takes(role, t), fault_at(e.line, e.token, UnitRule::C9));
    note.add(
        is_wrong_place(role, e, t),
        fault_at(e.line, e.token, UnitRule::C10),
    );
    match &e.kind {
        ExprKind::Name(id) => judge_name(scope, around, role, e.line, e.token, *id, note),
        ExprKind::Int(_, _)
        | ExprKind::Index(_, _)
        | ExprKind::Deref(_)
        | ExprKind::Addr(_)
        | ExprKind::Unary(_, _)
        | ExprKind::Binary(_, _, _)
        | ExprKind::Cond(_, _, _)
        | ExprKind::Cast(_, _)
        | ExprKind::Call(_, _) => {}
    }
}

// Whether a call is wrong, whose arguments fit or not.
#[tactic(auto, using(crate::proofs::Arguments::length_typings))]
fn is_wrong_call(scope: &Scopes, known: &Known, fits: bool, arguments: &[Expr]) -> bool
    requires { fits ≡ are_arguments (wanted_types (meaning_seen known.now)) (typings_of (scope_of scope.now) (exprs_of arguments.now)) }
    ensures { result ≡ is_wrong_call (meaning_seen known.now) (typings_of (scope_of scope.now) (exprs_of arguments.now)) }
{
    !known.is_undeclared() && (fits && !known.is_callable(arguments.len()))
}

// What a call breaks, whose arguments fit or not.
#[tactic(auto, using(vk_rules_book::proofs::Noting::among_append), unfolding(vk_rules_book::specs::Expressions::called_faults, vk_rules_book::specs::Expressions::call_faults))]
fn judge_call(
    scope: &Scopes,
    around: Around,
    e: &Expr,
    id: NameId,
    fits: bool,
    arguments: &[Expr],
    note: &mut Note,
)
    requires { fits ≡ are_arguments (wanted_types (meaning_of (scope_of scope.now) id)) (typings_of (scope_of scope.now) (exprs_of arguments.now)) }
    ensures { note.new.first ≡ first_among note.old.first (called_faults scope.now.names.now around (scope_of scope.now) e.now.line e.now.token id (exprs_of arguments.now)) }
{
    let known = scope.meaning(id);
    note.add(
        known.is_undeclared(),
        fault_at(e.line, e.token, UnitRule::C8),
    );
    note.add(
        is_wrong_call(scope, &known, fits, arguments),
        fault_at(e.line, e.token, UnitRule::C9),
    );
    note.add(scope.is_long(id), fault_at(e.line, e.token, UnitRule::C16));
    note.add(
        is_simd(around) && known.is_plain_function(),
        fault_with(e.line, e.token, UnitRule::D15, around.directive),
    );
}

// The type of a call, whose arguments fit or not.
#[tactic(auto, using(crate::proofs::Arguments::length_typings))]
fn call_typing(scope: &Scopes, known: &Known, fits: bool, arguments: &[Expr]) -> Typing
    requires { fits ≡ are_arguments (wanted_types (meaning_seen known.now)) (typings_of (scope_of scope.now) (exprs_of arguments.now)) }
    ensures { result ≡ call_typing (meaning_seen known.now) (typings_of (scope_of scope.now) (exprs_of arguments.now)) }
{
    if fits && known.is_callable(arguments.len()) {
        known.called()
    } else {
        Typing::Untyped
    }
}

// The type of an element that a pointer leads to.
fn element_of(pointer: Typing) -> Typing
    ensures { result ≡ pointed_typing pointer }
{
    match pointer {
        Typing::Pointer { to, written } => Typing::Cell { ty: to, written },
        _ => Typing::Untyped,
    }
}

// The same behind a subscript.
fn indexed(pointer: Typing, subscript: Typing) -> Typing
    ensures { result ≡ element_typing pointer subscript }
{
    match (pointer, number_type(subscript)) {
        (Typing::Pointer { to, written }, Some(_)) => Typing::Cell { ty: to, written },
        _ => Typing::Untyped,
    }
}

fn unary_typing(op: UnOp, operand: Typing) -> Typing
    ensures { result ≡ unary_typing op operand }
{
    match number_type(operand) {
        Some(t) => Typing::Number(unary_type(op, t)),
        None => Typing::Untyped,
    }
}

fn cast_typing(ty: Ty, operand: Typing) -> Typing
    ensures { result ≡ cast_typing ty operand }
{
    match number_type(operand) {
        Some(_) => Typing::Number(ty),
        None => Typing::Untyped,
    }
}

#[tactic(auto, unfolding(vk_rules_book::specs::Typings::choice_typing))]
fn choice_typing(condition: Typing, first: Typing, second: Typing) -> Typing
    ensures { result ≡ choice_typing condition first second }
{
    match number_type(condition) {
        None => Typing::Untyped,
        Some(_) => match number_type(first) {
            None => Typing::Untyped,
            Some(s) => match number_type(second) {
                None => Typing::Untyped,
                Some(t) => Typing::Number(common(s, t)),
            },
        },
    }
}

// Whether one argument more fits.
fn still_fits(fits: bool, wanted: Option<CType>, t: Typing) -> bool
    ensures { result ≡ (fits && (is_typed t && is_argument wanted t)) }
{
    fits && (is_typed(t) && is_argument(wanted, t))
}

/// Judges an expression in its role, and all in it, and tells its type.
#[cycle(judging)]
#[tactic(auto, using(vk_rules_book::proofs::Noting::found_append, vk_rules_book::proofs::Noting::found_one))]
pub fn judge_in_role(
    scope: &Scopes,
    around: Around,
    role: Role,
    addressed: bool,
    e: &Expr,
    note: &mut Note,
) -> Typing
    ensures typing { result ≡ typing_of (scope_of scope.now) (expr_of e.now) }
    ensures noted { note.new.first ≡ found (unit_in scope.now) note.old.first
        (with_role around (scope_of scope.now) role (expr_of e.now) (parts_of around (scope_of scope.now) addressed (expr_of e.now))) }
{
    let t = judge_parts(scope, around, addressed, e, note);
    judge(scope, around, role, e, t, note);
    t
}

// Judges what stands in an expression, and tells its type.
#[cycle(judging)]
#[tactic(auto, using(vk_rules_book::proofs::Noting::found_append, vk_rules_book::proofs::Noting::found_one, vk_rules_book::proofs::Noting::found_cons, vk_rules_book::proofs::Noting::found_none))]
fn judge_parts(scope: &Scopes, around: Around, addressed: bool, e: &Expr, note: &mut Note) -> Typing
    ensures typing { result ≡ typing_of (scope_of scope.now) (expr_of e.now) }
    ensures noted { note.new.first ≡ found (unit_in scope.now) note.old.first (parts_of around (scope_of scope.now) addressed (expr_of e.now)) }
{
    match &e.kind {
        ExprKind::Int(ty, _) => Typing::Number(*ty),
        ExprKind::Name(id) => scope.meaning(*id).typing(),
        ExprKind::Index(base, subscript) => {
            let direct = !addressed && is_zero(subscript);
            let pointer = judge_in_role(scope, around, Role::Base { direct }, false, base, note);
            let t = judge_in_role(scope, around, Role::Value, false, subscript, note);
            indexed(pointer, t)
        }
        ExprKind::Deref(operand) => {
            let role = Role::Base { direct: !addressed };
            element_of(judge_in_role(scope, around, role, false, operand, note))
        }
        ExprKind::Addr(operand) => {
            with_address(judge_in_role(scope, around, Role::Address, true, operand, note))
        }
        ExprKind::Unary(op, operand) => {
            let t = judge_in_role(scope, around, Role::Value, false, operand, note);
            unary_typing(*op, t)
        }
        ExprKind::Binary(op, left, right) => {
            let l = judge_parts(scope, around, false, left, note);
            let r = judge_parts(scope, around, false, right, note);
            judge(scope, around, left_role(*op, l, r), left, l, note);
            judge(scope, around, right_role(*op, l, r), right, r, note);
            binary_typing(*op, l, r)
        }
        ExprKind::Cond(condition, first, second) => {
            let c = judge_in_role(scope, around, Role::Value, false, condition, note);
            let s = judge_in_role(scope, around, Role::Value, false, first, note);
            let t = judge_in_role(scope, around, Role::Value, false, second, note);
            choice_typing(c, s, t)
        }
        ExprKind::Cast(ty, operand) => {
            let t = judge_in_role(scope, around, Role::Value, false, operand, note);
            cast_typing(*ty, t)
        }
        ExprKind::Call(id, arguments) => {
            let known = scope.meaning(*id);
            let fits = judge_arguments(scope, around, &known, arguments, note);
            judge_call(scope, around, e, *id, fits, arguments, note);
            call_typing(scope, &known, fits, arguments)
        }
    }
}

// Judges the arguments of a call, and tells whether each has a type that its parameter takes.
#[cycle(judging)]
#[tactic(auto, using(vk_rules_book::proofs::Noting::found_append, vk_rules_book::proofs::Noting::found_one))]
fn judge_arguments(
    scope: &Scopes,
    around: Around,
    known: &Known,
    arguments: &[Expr],
    note: &mut Note,
) -> bool
    ensures fits { result ≡ are_arguments (wanted_types (meaning_seen known.now)) (typings_of (scope_of scope.now) (exprs_of arguments.now)) }
    ensures noted { note.new.first ≡ found (unit_in scope.now) note.old.first
        (argument_visits around (scope_of scope.now) (wanted_types (meaning_seen known.now)) (exprs_of arguments.now)) }
{
    let mut fits = true;
    for (number, argument) in arguments.iter().enumerate() {
        let wanted = known.wanted(number);
        let t = judge_in_role(scope, around, Role::Argument(wanted), false, argument, note);
        fits = still_fits(fits, wanted, t);
    }
    fits
}
