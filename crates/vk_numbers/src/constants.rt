// Constants (C17 6.6).

ghost use Rattle.std.specs.Prelude.{◌≡◌, IfOk, IfSome};
ghost use Rattle.std.specs.Option.{option_map};
ghost use Rattle.vk_types.specs.Numbers.{IsInRange};
ghost use Rattle.vk_ast.specs.Tree.{expr_of};
ghost use Rattle.vk_numbers.specs.Constants.{computed, computed_binary, computed_cast, computed_choice, computed_literal, computed_unary, constant_of, constant_to};
ghost use Rattle.vk_numbers.specs.Inner.Deciding.{IsFit, computed_by};

use crate::operators::{binary_value, choice_value, convert, converted, unary_value};
use crate::types::{binary_type, unary_type};
use vk_ast::{BinOp, Expr, ExprKind, UnOp};
use vk_types::{Stop, Ty, common};

/// What an expression of the form of a constant computes: its type, and its number, which is one of the type, or a stop.
#[derive(Clone, Copy)]
pub struct Constant {
    pub ty: Ty,
    pub value: Result<i128, Stop>,
}

fn literal(t: Ty, n: u64) -> Constant
    ensures computed { computed_by result ≡ computed_literal t n }
    ensures fits { IsFit result }
{
    Constant {
        ty: t,
        value: Ok(convert(t, i128::from(n))),
    }
}

fn unary(op: UnOp, e: Constant) -> Constant
    ensures computed { computed_by result ≡ computed_unary op (computed_by e) }
    ensures fits { IsFit result }
{
    Constant {
        ty: unary_type(op, e.ty),
        value: unary_value(op, e.ty, e.value),
    }
}

fn binary(op: BinOp, left: Constant, right: Constant) -> Constant
    requires { IsFit right }
    ensures computed { computed_by result ≡ computed_binary op (computed_by left) (computed_by right) }
    ensures fits { IsFit result }
{
    Constant {
        ty: binary_type(op, left.ty, right.ty),
        value: binary_value(op, left.ty, right.ty, left.value, right.value),
    }
}

fn choice(condition: Constant, first: Constant, second: Constant) -> Constant
    ensures computed { computed_by result ≡ computed_choice (computed_by condition) (computed_by first) (computed_by second) }
    ensures fits { IsFit result }
{
    Constant {
        ty: common(first.ty, second.ty),
        value: choice_value(
            first.ty,
            second.ty,
            condition.value,
            first.value,
            second.value,
        ),
    }
}

fn cast(t: Ty, e: Constant) -> Constant
    ensures computed { computed_by result ≡ computed_cast t (computed_by e) }
    ensures fits { IsFit result }
{
    Constant {
        ty: t,
        value: converted(t, e.value),
    }
}

/// What an expression computes, where it has the form of a constant.
pub fn computed(e: &Expr) -> Option<Constant>
    ensures computed { option_map computed_by result ≡ computed (expr_of e.now) }
    ensures fits { IfSome result (λ c. IsFit c) }
{
    match &e.kind {
        ExprKind::Int(t, n) => Some(literal(*t, *n)),
        ExprKind::Unary(op, operand) => {
            let Some(x) = computed(operand) else {
                return None;
            };
            Some(unary(*op, x))
        }
        ExprKind::Binary(op, left, right) => {
            let Some(x) = computed(left) else {
                return None;
            };
            let Some(y) = computed(right) else {
                return None;
            };
            Some(binary(*op, x, y))
        }
        ExprKind::Cond(condition, first, second) => {
            let Some(c) = computed(condition) else {
                return None;
            };
            let Some(x) = computed(first) else {
                return None;
            };
            let Some(y) = computed(second) else {
                return None;
            };
            Some(choice(c, x, y))
        }
        ExprKind::Cast(t, operand) => {
            let Some(x) = computed(operand) else {
                return None;
            };
            Some(cast(*t, x))
        }
        ExprKind::Name(_)
        | ExprKind::Index(_, _)
        | ExprKind::Deref(_)
        | ExprKind::Addr(_)
        | ExprKind::Call(_, _) => None,
    }
}

/// The number of a constant; none where it is no constant or stops.
#[tactic(auto, unfolding(crate::specs::Constants::constant_of))]
pub fn constant_of(e: &Expr) -> Option<i128>
    ensures { result ≡ constant_of (expr_of e.now) }
{
    let Some(c) = computed(e) else {
        return None;
    };
    match c.value {
        Ok(z) => Some(z),
        Err(_) => None,
    }
}

/// The number of a constant, where it is from 1 up to a limit.
pub fn constant_to(limit: u32, e: &Expr) -> Option<u32>
    ensures { result ≡ constant_to limit (expr_of e.now) }
{
    let Some(z) = constant_of(e) else {
        return None;
    };
    if 1 <= z && z <= i128::from(limit) {
        Some(z as u32)
    } else {
        None
    }
}
