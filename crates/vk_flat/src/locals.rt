// Names of integers in registers.

ghost use Rattle.std.specs.Prelude.{◌≡◌, cond, IsTrue, None, Some};
ghost use Rattle.vk_ast.specs.Tree.{expr_of};
ghost use Rattle.vk_rules_book.specs.Scopes.{Scope, same_name};
ghost use Rattle.vk_construct.specs.Computes.{Table};
ghost use Rattle.vk_construct.specs.Trees.{HasNumber};
ghost use Rattle.vk_flat.specs.Locals.{AreLocals, is_numeric, local_named};

use crate::emitter::Place;
use vk_ast::{Expr, ExprKind, NameId};
use vk_numbers::{binary_type, unary_type};
use vk_types::{Ty, common};

/// A parameter or a local variable of an integer type.
#[derive(Clone, Copy, PartialEq, Eq, Debug)]
pub struct Local {
    pub name: NameId,
    pub place: Place,
}

/// The last one with this name.
pub fn local_named(locals: &[Local], id: NameId) -> Option<Local>
    ensures { result ≡ local_named locals.now id }
{
    let [first, rest @ ..] = locals else {
        return None;
    };
    match local_named(rest, id) {
        Some(local) => Some(local),
        None => alone(first, id),
    }
}

// The local, where it has this name.
fn alone(local: &Local, id: NameId) -> Option<Local>
    ensures { result ≡ cond (same_name local.now.name id) (Some local.now) None }
{
    if local.name.0 == id.0 {
        Some(*local)
    } else {
        None
    }
}

/// The type of the number that a numeric expression gives.
pub fn type_of(locals: &[Local], e: &Expr) -> Ty
    requires { IsTrue (is_numeric locals.now (expr_of e.now)) }
    ensures { (scope : Scope) (tb : Table) → AreLocals locals.now scope tb → HasNumber scope (expr_of e.now) result }
{
    match &e.kind {
        ExprKind::Int(ty, _) => *ty,
        ExprKind::Name(id) => match local_named(locals, *id) {
            Some(local) => local.place.ty,
            None => unreachable!(),
        },
        ExprKind::Cast(ty, operand) => {
            let _operand = type_of(locals, operand);
            *ty
        }
        ExprKind::Unary(op, operand) => unary_type(*op, type_of(locals, operand)),
        ExprKind::Binary(op, left, right) => {
            binary_type(*op, type_of(locals, left), type_of(locals, right))
        }
        ExprKind::Cond(condition, first, second) => {
            let _condition = type_of(locals, condition);
            common(type_of(locals, first), type_of(locals, second))
        }
        ExprKind::Index(_, _) | ExprKind::Deref(_) | ExprKind::Addr(_) | ExprKind::Call(_, _) =>
            unreachable!(),
    }
}
