// Of what type an expression is, from the types of its parts.

ghost use Rattle.std.specs.Prelude.{◌≡◌};
ghost use Rattle.vk_rules_book.specs.Expressions.{lets_written, may_be_assigned, may_have_address};
ghost use Rattle.vk_rules_book.specs.Typings.{binary_typing, is_argument, is_number, is_pointer, is_pointer_to, is_plus, is_sum, is_typed, left_role, moves_left, moves_right, number_type, right_role, takes, with_address, same_type};

use vk_ast::BinOp;
use vk_kinds::CType;
use vk_numbers::binary_type;
use vk_rules_book::{Role, Typing};
use vk_types::Ty;

/// The type of the number that an expression gives.
pub fn number_type(t: Typing) -> Option<Ty>
    ensures { result ≡ number_type t }
{
    match t {
        Typing::Number(ty) => Some(ty),
        Typing::Variable { ty, fixed: _ } => Some(ty),
        Typing::Cell { ty, written: _ } => Some(ty),
        Typing::Pointer { .. } | Typing::Nothing | Typing::Function | Typing::Untyped => None,
    }
}

pub fn is_number(t: Typing) -> bool
    ensures { result ≡ is_number t }
{
    number_type(t).is_some()
}

pub fn is_pointer(t: Typing) -> bool
    ensures { result ≡ is_pointer t }
{
    matches!(t, Typing::Pointer { .. })
}

pub fn is_typed(t: Typing) -> bool
    ensures { result ≡ is_typed t }
{
    !matches!(t, Typing::Untyped)
}

/// Whether an argument has the type that the parameter wants.
pub fn is_argument(wanted: Option<CType>, t: Typing) -> bool
    ensures { result ≡ is_argument wanted t }
{
    match wanted {
        None => is_number(t) || is_pointer(t),
        Some(CType::Void) => true,
        Some(CType::Int(_)) => is_number(t),
        Some(CType::Ptr { to, written }) => is_pointer_to(to, written, t),
    }
}

fn same_type(a: Ty, b: Ty) -> bool
    ensures { result ≡ same_type a b }
{
    a == b
}

fn is_pointer_to(to: Ty, written: bool, t: Typing) -> bool
    ensures { result ≡ is_pointer_to to written t }
{
    match t {
        Typing::Pointer {
            to: own,
            written: own_written,
        } => { same_type(to, own) && (!written || own_written) }
        _ => false,
    }
}

/// Whether what holds an expression takes its type.
pub fn takes(role: Role, t: Typing) -> bool
    ensures { result ≡ takes role t }
{
    if !is_typed(t) {
        return true;
    }
    match role {
        Role::Value => is_number(t),
        Role::Added | Role::Base { direct: _ } => is_pointer(t),
        Role::Address | Role::Place => true,
        Role::Argument(wanted) => is_argument(wanted, t),
        Role::Whole => is_number(t) || matches!(t, Typing::Nothing),
    }
}

pub fn may_be_assigned(t: Typing) -> bool
    ensures { result ≡ may_be_assigned t }
{
    match t {
        Typing::Untyped => true,
        Typing::Variable { ty: _, fixed } => !fixed,
        Typing::Cell { ty: _, written } => written,
        _ => false,
    }
}

pub fn may_have_address(t: Typing) -> bool
    ensures { result ≡ may_have_address t }
{
    matches!(t, Typing::Untyped | Typing::Cell { .. })
}

pub fn lets_written(role: Role) -> bool
    ensures { result ≡ lets_written role }
{
    match role {
        Role::Base { direct } => direct,
        Role::Argument(Some(CType::Ptr { to: _, written })) => written,
        _ => false,
    }
}

/// The address of a place in memory.
pub fn with_address(t: Typing) -> Typing
    ensures { result ≡ with_address t }
{
    match t {
        Typing::Cell { ty, written } => Typing::Pointer { to: ty, written },
        _ => Typing::Untyped,
    }
}

fn is_sum(op: BinOp) -> bool
    ensures { result ≡ is_sum op }
{
    matches!(op, BinOp::Add | BinOp::Sub)
}

fn is_plus(op: BinOp) -> bool
    ensures { result ≡ is_plus op }
{
    matches!(op, BinOp::Add)
}

fn moves_left(op: BinOp, left: Typing) -> bool
    ensures { result ≡ moves_left op left }
{
    is_sum(op) && is_pointer(left)
}

fn moves_right(op: BinOp, left: Typing, right: Typing) -> bool
    ensures { result ≡ moves_right op left right }
{
    is_plus(op) && (!is_pointer(left) && is_pointer(right))
}

pub fn left_role(op: BinOp, left: Typing, right: Typing) -> Role
    ensures { result ≡ left_role op left right }
{
    if moves_left(op, left) {
        Role::Added
    } else {
        Role::Value
    }
}

pub fn right_role(op: BinOp, left: Typing, right: Typing) -> Role
    ensures { result ≡ right_role op left right }
{
    if moves_right(op, left, right) {
        Role::Added
    } else {
        Role::Value
    }
}

pub fn binary_typing(op: BinOp, left: Typing, right: Typing) -> Typing
    ensures { result ≡ binary_typing op left right }
{
    if moves_left(op, left) {
        return match number_type(right) {
            Some(_) => left,
            None => Typing::Untyped,
        };
    }
    if moves_right(op, left, right) {
        return match number_type(left) {
            Some(_) => right,
            None => Typing::Untyped,
        };
    }
    match (number_type(left), number_type(right)) {
        (Some(s), Some(t)) => Typing::Number(binary_type(op, s, t)),
        _ => Typing::Untyped,
    }
}
