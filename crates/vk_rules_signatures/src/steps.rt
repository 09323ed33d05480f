// The steps of linear parameters.

ghost use Rattle.std.specs.Prelude.{◌≡◌, ◌≤◌, true, false, length, map, unsigned_abs};
ghost use Rattle.std.specs.List.{list_any};
ghost use Rattle.std.specs.Option.{option_map};
ghost use Rattle.vk_ast.specs.Directives.{clause_of, directive_of, says_of};
ghost use Rattle.vk_ast.specs.Tree.{expr_of};
ghost use Rattle.vk_ast.specs.Units.{function_of};
ghost use Rattle.vk_rules_book.specs.Signatures.{by_number, is_in_uniform, is_uniform, lists, named_step, pointee_of, scaled, step_of, written_step};
ghost use Rattle.vk_rules_book.specs.Directives.{is_wrong_step};
ghost use Rattle.vk_rules_signatures.specs.Inner.Steps.{FitsStep, step_seen};

use crate::params::{is_integer_named, number_of, pointee_of};
use vk_ast::{
    Clause, ClauseKind, Directive, Expr, ExprKind, Function, NameId, ParamDecl, PlacedName,
};
use vk_kinds::Step;
use vk_numbers::constant_of;
use vk_types::{Ty, size};

// A step as a clause says it: a number, which for a pointer counts elements, or the number of a parameter.
#[derive(Clone, Copy)]
pub(crate) enum DirectiveStep {
    Constant(i128),
    Parameter(usize),
    None,
}

// Whether a list names it.
pub(crate) fn lists(names: &[PlacedName], id: NameId) -> bool
    ensures { result ≡ lists id names.now }
{
    match names {
        [] => false,
        [n, rest @ ..] => n.name.0 == id.0 || lists(rest, id),
    }
}

fn is_in_uniform(clause: &Clause, id: NameId) -> bool
    ensures { result ≡ is_in_uniform id (says_of clause.now.kind) }
{
    match &clause.kind {
        ClauseKind::Uniform(names) => lists(names, id),
        ClauseKind::Simdlen(_)
        | ClauseKind::Aligned(_, _)
        | ClauseKind::Linear(_, _, _)
        | ClauseKind::Inside
        | ClauseKind::Outside
        | ClauseKind::Other => false,
    }
}

fn is_uniform_in(clauses: &[Clause], id: NameId) -> bool
    ensures { result ≡ list_any (λ c. is_in_uniform id c.says) (map clause_of clauses.now) }
{
    match clauses {
        [] => false,
        [clause, rest @ ..] => is_in_uniform(clause, id) || is_uniform_in(rest, id),
    }
}

// Whether a clause of the directive says that the parameter is uniform.
#[tactic(auto, unfolding(vk_rules_book::specs::Signatures::is_uniform))]
fn is_uniform(d: &Directive, id: NameId) -> bool
    ensures { result ≡ is_uniform (directive_of d.now) id }
{
    is_uniform_in(&d.clauses, id)
}

// A step that is no constant.
fn named_step(f: &Function, d: &Directive, e: &Expr) -> DirectiveStep
    ensures step { step_seen result ≡ named_step (function_of f.now) (directive_of d.now) (expr_of e.now) }
    ensures fits { FitsStep (length f.now.params.items) result }
{
    match &e.kind {
        ExprKind::Name(id) => {
            if is_integer_named(&f.params, *id) && is_uniform(d, *id) {
                DirectiveStep::Parameter(number_of(&f.params, *id))
            } else {
                DirectiveStep::None
            }
        }
        ExprKind::Int(_, _)
        | ExprKind::Index(_, _)
        | ExprKind::Deref(_)
        | ExprKind::Addr(_)
        | ExprKind::Unary(_, _)
        | ExprKind::Binary(_, _, _)
        | ExprKind::Cond(_, _, _)
        | ExprKind::Cast(_, _)
        | ExprKind::Call(_, _) => DirectiveStep::None,
    }
}

// The step of a `linear` clause, 1 where none is written.
#[tactic(auto, unfolding(vk_rules_book::specs::Signatures::step_of))]
pub(crate) fn step_of(f: &Function, d: &Directive, e: &Option<Expr>) -> DirectiveStep
    ensures step { step_seen result ≡ step_of (function_of f.now) (directive_of d.now) (option_map expr_of e.now) }
    ensures fits { FitsStep (length f.now.params.items) result }
{
    let Some(e) = e else {
        return DirectiveStep::Constant(1);
    };
    match constant_of(e) {
        Some(z) => DirectiveStep::Constant(z),
        None => named_step(f, d, e),
    }
}

// A step of a pointer counts elements, and its signature bytes.
fn scaled(to: Option<Ty>, z: i128) -> i128
    requires { unsigned_abs z ≤ 2147483647 }
    ensures { result ≡ scaled to z }
{
    match to {
        None => z,
        Some(to) => z * i128::from(size(to)),
    }
}

fn by_number(z: i128) -> Step
    requires { unsigned_abs z ≤ 2147483647 }
    ensures { result ≡ by_number z }
{
    if z == 1 {
        Step::One
    } else {
        Step::By(z as i32)
    }
}

fn constant_step(to: Option<Ty>, z: i128) -> Step
    requires elements { unsigned_abs z ≤ 2147483647 }
    requires bytes { unsigned_abs (scaled to z) ≤ 2147483647 }
    ensures { result ≡ by_number (scaled to z) }
{
    by_number(scaled(to, z))
}

// The step that a clause writes for one of the parameters that it names.
pub(crate) fn written_step(
    params: &[ParamDecl],
    names: &[PlacedName],
    id: NameId,
    step: DirectiveStep,
) -> Step
    requires few { length params.now ≤ 64 }
    requires fits { FitsStep (length params.now) step }
    requires listed { lists id names.now ≡ true }
    requires right { is_wrong_step params.now names.now (step_seen step) ≡ false }
    ensures { result ≡ written_step (pointee_of params.now id) (step_seen step) }
{
    match step {
        DirectiveStep::Constant(z) => constant_step(pointee_of(params, id), z),
        DirectiveStep::Parameter(n) => Step::Arg(n as u8),
        DirectiveStep::None => Step::One,
    }
}
