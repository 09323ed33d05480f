// Shapes of expressions and of arguments.

ghost use Rattle.std.specs.Prelude.{◌≡◌, ◌&&◌, cond, pos};
ghost use Rattle.vk_ast.specs.Tree.{expr_of};
ghost use Rattle.vk_ast.specs.declared.expressions.UnOp.TheVariants.{Neg};
ghost use Rattle.vk_meaning.specs.Expressions.{integer_type};
ghost use Rattle.vk_numbers.specs.Operators.{unary_number};
ghost use Rattle.vk_rules_book.specs.Typings.{is_plus, moves_left, moves_right, typing_of, with_address};
ghost use Rattle.vk_rules_names.specs.Seen.{scope_of};
ghost use Rattle.vk_sites.specs.Shapes.{address_shape, has_number, moved_shape, negated, negative, operator_shape, shape_of};
ghost use Rattle.vk_code.specs.declared.code.Shape.TheVariants.{Literal};
ghost use Rattle.vk_types.specs.declared.types.Ty.TheVariants.{I32};
ghost use Rattle.vk_shapes.specs.Arguments.{argument_shape};
ghost use Rattle.vk_shapes.specs.Views.{view_of};

use crate::shapes::{
    as_integer, as_parameter, has_number, is_uniform, literal_shape, moved_shape, operator_shape,
    uniform_if,
};
use crate::typing::{
    cast_typing, choice_typing, element_typing, integer_type, moves_left, moves_right, typing,
    unary_typing,
};
use crate::view::View;
use vk_ast::{BinOp, Expr, ExprKind, UnOp};
use vk_code::Shape;
use vk_kinds::CType;
use vk_numbers::operators::unary_value;
use vk_rules_book::Typing;
use vk_rules_expr::typing::{binary_typing, number_type, with_address};
use vk_rules_names::Scopes;
use vk_types::Ty;

/// The type and the shape of an expression.
#[derive(Clone, Copy)]
pub struct Shaped {
    pub typing: Typing,
    pub shape: Shape,
}

// The literal with this number, where that is an int; else of this shape.
fn literal_or(z: i128, other: Shape) -> Shape
    ensures { result ≡ cond (has_number I32 z) (Literal z) other }
{
    if has_number(Ty::I32, z) {
        Shape::Literal(z as i32)
    } else {
        other
    }
}

// `-` before a literal, where the number fits an int; else of this shape.
fn negated(t: Ty, n: u64, other: Shape) -> Shape
    ensures { result ≡ negated (unary_number Neg t (pos n)) other }
{
    match unary_value(UnOp::Neg, t, Ok(i128::from(n))) {
        Ok(z) => literal_or(z, other),
        Err(_) => other,
    }
}

// A unary operator, whose result has this shape where the operand is no literal.
fn unary_shape(op: UnOp, operand: &Expr, other: Shape) -> Shape
    ensures { result ≡ negative op (expr_of operand.now) other }
{
    match (op, &operand.kind) {
        (UnOp::Neg, ExprKind::Int(t, n)) => negated(*t, *n, other),
        _ => other,
    }
}

fn is_plus(op: BinOp) -> bool
    ensures { result ≡ is_plus op }
{
    matches!(op, BinOp::Add)
}

// Of a binary operator; `is_left` and `is_right`: the operand is the loop's variable.
fn binary_shape(op: BinOp, x: Shaped, y: Shaped, is_left: bool, is_right: bool) -> Shape
    ensures { result ≡ cond (moves_left op x.typing) (moved_shape (is_plus op && is_right) x.shape y.shape)
        (cond (moves_right op x.typing y.typing) (moved_shape is_left y.shape x.shape)
        (operator_shape op (integer_type x.typing) (integer_type y.typing) x.shape y.shape)) }
{
    if moves_left(op, x.typing) {
        return moved_shape(is_plus(op) && is_right, x.shape, y.shape);
    }
    if moves_right(op, x.typing, y.typing) {
        return moved_shape(is_left, y.shape, x.shape);
    }
    let s = integer_type(x.typing);
    let t = integer_type(y.typing);
    operator_shape(op, s, t, x.shape, y.shape)
}

/// The type and the shape of an expression.
#[cycle(reading)]
pub fn read(view: &View, scopes: &Scopes, e: &Expr) -> Shaped
    ensures typing { result.typing ≡ typing_of (scope_of scopes.now) (expr_of e.now) }
    ensures shape { result.shape ≡ shape_of (view_of view.now) (scope_of scopes.now) (expr_of e.now) }
{
    match &e.kind {
        ExprKind::Int(t, n) => Shaped {
            typing: Typing::Number(*t),
            shape: literal_shape(i128::from(*n)),
        },
        ExprKind::Name(id) => Shaped {
            typing: scopes.meaning(*id).typing(),
            shape: view.name_shape(scopes, *id),
        },
        ExprKind::Index(_, _) | ExprKind::Deref(_) | ExprKind::Call(_, _) => Shaped {
            typing: typing(scopes, e),
            shape: Shape::Vector,
        },
        ExprKind::Addr(operand) => read_address(view, scopes, operand),
        ExprKind::Unary(op, operand) => {
            let x = read(view, scopes, operand);
            Shaped {
                typing: unary_typing(*op, x.typing),
                shape: unary_shape(*op, operand, uniform_if(is_uniform(x.shape))),
            }
        }
        ExprKind::Binary(op, left, right) => {
            let x = read(view, scopes, left);
            let y = read(view, scopes, right);
            let is_left = view.is_loop_variable(scopes, left);
            let is_right = view.is_loop_variable(scopes, right);
            Shaped {
                typing: binary_typing(*op, x.typing, y.typing),
                shape: binary_shape(*op, x, y, is_left, is_right),
            }
        }
        ExprKind::Cond(condition, first, second) => {
            let c = read(view, scopes, condition);
            let x = read(view, scopes, first);
            let y = read(view, scopes, second);
            let all = is_uniform(c.shape) && (is_uniform(x.shape) && is_uniform(y.shape));
            Shaped {
                typing: choice_typing(c.typing, x.typing, y.typing),
                shape: uniform_if(all),
            }
        }
        ExprKind::Cast(t, operand) => {
            let x = read(view, scopes, operand);
            let itself = view.is_loop_variable(scopes, operand);
            Shaped {
                typing: cast_typing(*t, x.typing),
                shape: as_integer(integer_type(x.typing), *t, itself, x.shape),
            }
        }
    }
}

// The address of a place.
#[cycle(reading)]
fn read_address(view: &View, scopes: &Scopes, operand: &Expr) -> Shaped
    ensures typing { result.typing ≡ with_address (typing_of (scope_of scopes.now) (expr_of operand.now)) }
    ensures shape { result.shape ≡ address_shape (view_of view.now) (scope_of scopes.now) (expr_of operand.now) }
{
    match &operand.kind {
        ExprKind::Name(id) => Shaped {
            typing: with_address(scopes.meaning(*id).typing()),
            shape: Shape::Uniform,
        },
        ExprKind::Index(base, subscript) => {
            let p = read(view, scopes, base);
            let n = read(view, scopes, subscript);
            let exactly = view.is_loop_variable(scopes, subscript);
            Shaped {
                typing: with_address(element_typing(p.typing, n.typing)),
                shape: moved_shape(exactly, p.shape, n.shape),
            }
        }
        _ => Shaped {
            typing: with_address(typing(scopes, operand)),
            shape: Shape::Vector,
        },
    }
}

/// The shape of an expression.
pub fn shape_of(view: &View, scopes: &Scopes, e: &Expr) -> Shape
    ensures { result ≡ shape_of (view_of view.now) (scope_of scopes.now) (expr_of e.now) }
{
    read(view, scopes, e).shape
}

/// The shape of an argument for a parameter of this type.
pub fn argument_shape(view: &View, scopes: &Scopes, to: CType, e: &Expr) -> Shape
    ensures { result ≡ argument_shape (view_of view.now) (scope_of scopes.now) to (expr_of e.now) }
{
    let x = read(view, scopes, e);
    let itself = view.is_loop_variable(scopes, e);
    as_parameter(number_type(x.typing), to, itself, x.shape)
}
