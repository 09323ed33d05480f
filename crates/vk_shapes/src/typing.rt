// Types of expressions.

ghost use Rattle.std.specs.Prelude.{◌≡◌};
ghost use Rattle.vk_ast.specs.Tree.{expr_of};
ghost use Rattle.vk_meaning.specs.Expressions.{integer_type};
ghost use Rattle.vk_rules_book.specs.Typings.{cast_typing, choice_typing, element_typing, moves_left, moves_right, typing_of, unary_typing};
ghost use Rattle.vk_rules_names.specs.Seen.{scope_of};

use vk_ast::{BinOp, Expr, UnOp};
use vk_kinds::CType;
use vk_numbers::unary_type;
use vk_rules_book::{Around, Role, Typing};
use vk_rules_expr::judge_in_role;
use vk_rules_expr::typing::{is_pointer, number_type};
use vk_rules_names::{Note, Scopes};
use vk_types::{Ty, common};

/// The type of an expression.
pub fn typing(scopes: &Scopes, e: &Expr) -> Typing
    ensures { result ≡ typing_of (scope_of scopes.now) (expr_of e.now) }
{
    let around = Around {
        directive: 0,
        result: CType::Void,
        in_loop: false,
    };
    let mut note = Note { first: None };
    judge_in_role(scopes, around, Role::Whole, false, e, &mut note)
}

/// The type of the number that an expression of this type gives.
pub fn integer_type(t: Typing) -> Ty
    ensures { result ≡ integer_type t }
{
    match t {
        Typing::Number(ty) => ty,
        Typing::Variable { ty, fixed: _ } => ty,
        Typing::Cell { ty, written: _ } => ty,
        Typing::Pointer { .. } | Typing::Nothing | Typing::Function | Typing::Untyped => Ty::I32,
    }
}

/// `P + E` and `P - E`.
pub fn moves_left(op: BinOp, left: Typing) -> bool
    ensures { result ≡ moves_left op left }
{
    matches!(op, BinOp::Add | BinOp::Sub) && is_pointer(left)
}

/// `E + P`.
pub fn moves_right(op: BinOp, left: Typing, right: Typing) -> bool
    ensures { result ≡ moves_right op left right }
{
    matches!(op, BinOp::Add) && (!is_pointer(left) && is_pointer(right))
}

/// The type of an element.
pub fn element_typing(base: Typing, subscript: Typing) -> Typing
    ensures { result ≡ element_typing base subscript }
{
    match (base, number_type(subscript)) {
        (Typing::Pointer { to, written }, Some(_)) => Typing::Cell { ty: to, written },
        _ => Typing::Untyped,
    }
}

pub fn unary_typing(op: UnOp, operand: Typing) -> Typing
    ensures { result ≡ unary_typing op operand }
{
    match number_type(operand) {
        Some(t) => Typing::Number(unary_type(op, t)),
        None => Typing::Untyped,
    }
}

pub fn cast_typing(ty: Ty, operand: Typing) -> Typing
    ensures { result ≡ cast_typing ty operand }
{
    match number_type(operand) {
        Some(_) => Typing::Number(ty),
        None => Typing::Untyped,
    }
}

#[tactic(auto, unfolding(vk_rules_book::specs::Typings::choice_typing))]
pub fn choice_typing(condition: Typing, first: Typing, second: Typing) -> Typing
    ensures { result ≡ choice_typing condition first second }
{
    match number_type(condition) {
        None => Typing::Untyped,
        Some(_) => match number_type(first) {
            None => Typing::Untyped,
            Some(s) => match number_type(second) {
                None => Typing::Untyped,
                Some(t) => Typing::Number(common(s, t)),
            },
        },
    }
}
