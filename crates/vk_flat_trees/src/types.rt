// The types of expressions.

ghost use Rattle.std.specs.Prelude.{◌≡◌, IsTrue, is_some};
ghost use Rattle.vk_ast.specs.Tree.{expr_of};
ghost use Rattle.vk_rules_book.specs.Scopes.{Scope};
ghost use Rattle.vk_construct.specs.Computes.{Table};
ghost use Rattle.vk_construct.specs.Trees.{HasNumber};
ghost use Rattle.vk_flat_trees.specs.Emits.{IsElementOf, IsPointerTo};
ghost use Rattle.vk_flat_trees.specs.Names.{AreNames, is_numeric, placing, pointing};

use vk_ast::{Expr, ExprKind};
use vk_flat_pointers::homes::home_named;
use vk_flat_pointers::{Home, Named};
use vk_numbers::{binary_type, unary_type};
use vk_types::{Ty, common};

/// The type of the number that an expression gives.
#[cycle(types)]
pub fn type_of(names: &[Named], e: &Expr) -> Ty
    requires { IsTrue (is_numeric names.now (expr_of e.now)) }
    ensures { (scope : Scope) (tb : Table) → AreNames names.now scope tb → HasNumber scope (expr_of e.now) result }
{
    match &e.kind {
        ExprKind::Int(ty, _) => *ty,
        ExprKind::Name(id) => match home_named(names, *id) {
            Some(Home::Number(place)) => place.ty,
            _ => unreachable!(),
        },
        ExprKind::Cast(ty, operand) => {
            let _operand = type_of(names, operand);
            *ty
        }
        ExprKind::Unary(op, operand) => unary_type(*op, type_of(names, operand)),
        ExprKind::Binary(op, left, right) => {
            binary_type(*op, type_of(names, left), type_of(names, right))
        }
        ExprKind::Cond(condition, first, second) => {
            let _condition = type_of(names, condition);
            common(type_of(names, first), type_of(names, second))
        }
        ExprKind::Index(base, subscript) => {
            let _subscript = type_of(names, subscript);
            pointed_type(names, base)
        }
        ExprKind::Deref(operand) => pointed_type(names, operand),
        ExprKind::Addr(_) | ExprKind::Call(_, _) => unreachable!(),
    }
}

/// The type of the elements that a pointer points to.
#[cycle(types)]
pub fn pointed_type(names: &[Named], e: &Expr) -> Ty
    requires { IsTrue (is_some (pointing names.now (expr_of e.now))) }
    ensures { (scope : Scope) (tb : Table) → AreNames names.now scope tb → IsPointerTo scope (expr_of e.now) result }
{
    match &e.kind {
        ExprKind::Name(id) => match home_named(names, *id) {
            Some(Home::Pointer(pointer)) => pointer.to,
            _ => unreachable!(),
        },
        ExprKind::Addr(place) => placed_type(names, place),
        ExprKind::Binary(_, base, by) => {
            let _by = type_of(names, by);
            pointed_type(names, base)
        }
        _ => unreachable!(),
    }
}

/// The type of the element that a place is.
#[cycle(types)]
pub fn placed_type(names: &[Named], e: &Expr) -> Ty
    requires { IsTrue (is_some (placing names.now (expr_of e.now))) }
    ensures { (scope : Scope) (tb : Table) → AreNames names.now scope tb → IsElementOf scope (expr_of e.now) result }
{
    match &e.kind {
        ExprKind::Index(base, subscript) => {
            let _subscript = type_of(names, subscript);
            pointed_type(names, base)
        }
        ExprKind::Deref(operand) => pointed_type(names, operand),
        _ => unreachable!(),
    }
}
