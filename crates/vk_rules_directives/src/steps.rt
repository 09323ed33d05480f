// The rule on steps, D6.

ghost use Rattle.std.specs.Prelude.{◌≡◌, ◌*◌, List, not, cond, nat_lt, unsigned_abs, Some, None};
ghost use Rattle.std.specs.List.{list_any};
ghost use Rattle.std.specs.Option.{option_map};
ghost use Rattle.vk_ast.specs.declared.directives.PlacedName.{PlacedName};
ghost use Rattle.vk_ast.specs.Directives.{directive_of, says_of};
ghost use Rattle.vk_ast.specs.Tree.{expr_of};
ghost use Rattle.vk_ast.specs.Units.{function_of};
ghost use Rattle.vk_rules_book.specs.Directives.{has_wrong_step, is_too_great, is_wrong_step};
ghost use Rattle.vk_rules_book.specs.Signatures.{constant, is_uniform, named_step, step_of};
ghost use Rattle.vk_rules_directives.specs.Inner.Tables.{AreTypes, Holds, type_at};
ghost use Rattle.vk_rules_directives.specs.Inner.Tests.{is_integer_type, is_wrong_constant, pointee_at, unit_bytes};

use crate::entries::At;
use crate::names::{NameSet, type_at};
use vk_ast::{ClauseKind, Expr, ExprKind, NameId, PlacedName};
use vk_kinds::CType;
use vk_numbers::constant_of;
use vk_types::size;

// The magnitude of a step, where it is at most 2147483647.
fn magnitude(z: i128) -> Option<u32>
    ensures { result ≡ cond (is_too_great z) None (Some (unsigned_abs z)) }
{
    if z > 2147483647 || z < -2147483647 {
        None
    } else if z < 0 {
        Some((-z) as u32)
    } else {
        Some(z as u32)
    }
}

// How many bytes a step of 1 is, for the parameter with this name.
fn unit_bytes(types: &[Option<CType>], id: NameId) -> u32
    ensures { result ≡ unit_bytes (pointee_at types.now id) }
{
    match type_at(types, id) {
        Some(CType::Ptr { to, written: _ }) => size(to),
        Some(CType::Void | CType::Int(_)) | None => 1,
    }
}

fn is_too_great_for(types: &[Option<CType>], id: NameId, magnitude: u32) -> bool
    ensures { result ≡ nat_lt 2147483647 (magnitude * unit_bytes (pointee_at types.now id)) }
{
    u64::from(magnitude) * u64::from(unit_bytes(types, id)) > 2147483647
}

// Whether a step of this magnitude is too great for one of the names.
fn is_too_great_for_one(types: &[Option<CType>], names: &[PlacedName], magnitude: u32) -> bool
    ensures { result ≡ list_any (λ (n : PlacedName). nat_lt 2147483647 (magnitude * unit_bytes (pointee_at types.now n.name))) names.now }
{
    names
        .iter()
        .any(|n| is_too_great_for(types, n.name, magnitude))
}

fn is_wrong_constant(types: &[Option<CType>], names: &[PlacedName], z: i128) -> bool
    ensures { result ≡ is_wrong_constant types.now names.now z }
{
    match magnitude(z) {
        None => true,
        Some(0) => true,
        Some(magnitude) => is_too_great_for_one(types, names, magnitude),
    }
}

fn is_integer_type(ctype: Option<CType>) -> bool
    ensures { result ≡ is_integer_type ctype }
{
    match ctype {
        Some(CType::Int(_)) => true,
        _ => false,
    }
}

// Whether a step that is no constant is the name of an integer parameter that is uniform.
fn is_by_parameter(at: &At, uniform: &NameSet, e: &Expr) -> bool
    requires types { AreTypes at.now.types.now at.now.f.now.params.items }
    requires uniform { Holds uniform.now (is_uniform (directive_of at.now.d.now)) }
    ensures { (names : List PlacedName) →
        is_wrong_step at.now.f.now.params.items names (named_step (function_of at.now.f.now) (directive_of at.now.d.now) (expr_of e.now)) ≡ not result }
{
    match &e.kind {
        ExprKind::Name(id) => is_integer_type(type_at(at.types, *id)) && uniform.has(*id),
        ExprKind::Int(_, _)
        | ExprKind::Index(_, _)
        | ExprKind::Deref(_)
        | ExprKind::Addr(_)
        | ExprKind::Unary(_, _)
        | ExprKind::Binary(_, _, _)
        | ExprKind::Cond(_, _, _)
        | ExprKind::Cast(_, _)
        | ExprKind::Call(_, _) => false,
    }
}

// Whether a constant step is wrong for one of the names of a clause.
fn is_wrong_number(at: &At, names: &[PlacedName], z: i128) -> bool
    requires { AreTypes at.now.types.now at.now.f.now.params.items }
    ensures { result ≡ is_wrong_step at.now.f.now.params.items names.now (constant z) }
{
    is_wrong_constant(at.types, names, z)
}

// Whether a step that is written is wrong.
#[tactic(auto, unfolding(vk_rules_book::specs::Signatures::step_of))]
fn is_wrong_written(at: &At, uniform: &NameSet, names: &[PlacedName], e: &Expr) -> bool
    requires types { AreTypes at.now.types.now at.now.f.now.params.items }
    requires uniform { Holds uniform.now (is_uniform (directive_of at.now.d.now)) }
    ensures { result ≡ is_wrong_step at.now.f.now.params.items names.now (step_of (function_of at.now.f.now) (directive_of at.now.d.now) (Some (expr_of e.now))) }
{
    match constant_of(e) {
        Some(z) => is_wrong_number(at, names, z),
        None => !is_by_parameter(at, uniform, e),
    }
}

// Whether the step of a `linear` clause is wrong for one of its names.
#[tactic(auto, unfolding(vk_rules_book::specs::Signatures::step_of))]
fn is_wrong_step(at: &At, uniform: &NameSet, names: &[PlacedName], e: &Option<Expr>) -> bool
    requires types { AreTypes at.now.types.now at.now.f.now.params.items }
    requires uniform { Holds uniform.now (is_uniform (directive_of at.now.d.now)) }
    ensures { result ≡ is_wrong_step at.now.f.now.params.items names.now (step_of (function_of at.now.f.now) (directive_of at.now.d.now) (option_map expr_of e.now)) }
{
    match e {
        Some(e) => is_wrong_written(at, uniform, names, e),
        None => is_wrong_number(at, names, 1),
    }
}

// Whether a clause has a step that is wrong.
pub(crate) fn has_wrong_step(at: &At, uniform: &NameSet, says: &ClauseKind) -> bool
    requires types { AreTypes at.now.types.now at.now.f.now.params.items }
    requires uniform { Holds uniform.now (is_uniform (directive_of at.now.d.now)) }
    ensures { result ≡ has_wrong_step (function_of at.now.f.now) (directive_of at.now.d.now) (says_of says.now) }
{
    match says {
        ClauseKind::Linear(names, _, e) => is_wrong_step(at, uniform, names, e),
        ClauseKind::Simdlen(_)
        | ClauseKind::Uniform(_)
        | ClauseKind::Aligned(_, _)
        | ClauseKind::Inside
        | ClauseKind::Outside
        | ClauseKind::Other => false,
    }
}
