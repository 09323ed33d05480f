// Of what type an expression is.

ghost use Rattle.std.specs.Prelude.{◌≡◌};
ghost use Rattle.vk_ast.specs.Tree.{expr_of};
ghost use Rattle.vk_meaning.specs.Expressions.{integer_type, pointed_type};
ghost use Rattle.vk_rules_book.specs.Typings.{is_pointer, moves_left, moves_right, typing_of};
ghost use Rattle.vk_rules_names.specs.Seen.{scope_of};

use vk_ast::{BinOp, Expr};
use vk_kinds::CType;
use vk_rules_book::{Around, Role, Typing};
use vk_rules_expr::judge_in_role;
use vk_rules_names::{Note, Scopes};
use vk_types::Ty;

/// The type of an expression.
pub fn typing(scopes: &Scopes, e: &Expr) -> Typing
    ensures { result ≡ typing_of (scope_of scopes.now) (expr_of e.now) }
{
    let around = Around {
        directive: 0,
        result: CType::Void,
        in_loop: false,
    };
    let mut note = Note { first: None };
    judge_in_role(scopes, around, Role::Whole, false, e, &mut note)
}

/// The type of the number that an expression of this type gives.
pub fn integer_type(t: Typing) -> Ty
    ensures { result ≡ integer_type t }
{
    match t {
        Typing::Number(ty) => ty,
        Typing::Variable { ty, fixed: _ } => ty,
        Typing::Cell { ty, written: _ } => ty,
        Typing::Pointer { .. } | Typing::Nothing | Typing::Function | Typing::Untyped => Ty::I32,
    }
}

/// The type of the elements that a pointer points to.
pub fn pointed_type(t: Typing) -> Ty
    ensures { result ≡ pointed_type t }
{
    match t {
        Typing::Pointer { to, written: _ } => to,
        _ => Ty::I32,
    }
}

fn is_pointer(t: Typing) -> bool
    ensures { result ≡ is_pointer t }
{
    matches!(t, Typing::Pointer { .. })
}

/// `P + E` and `P - E`.
pub fn moves_left(op: BinOp, left: Typing) -> bool
    ensures { result ≡ moves_left op left }
{
    matches!(op, BinOp::Add | BinOp::Sub) && is_pointer(left)
}

/// `E + P`.
pub fn moves_right(op: BinOp, left: Typing, right: Typing) -> bool
    ensures { result ≡ moves_right op left right }
{
    matches!(op, BinOp::Add) && (!is_pointer(left) && is_pointer(right))
}
