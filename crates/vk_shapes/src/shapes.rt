// Shapes, and what conversions and operators make of them (OpenMP 5.2, 7.7).

ghost use Rattle.std.specs.Prelude.{◌≡◌};
ghost use Rattle.vk_types.specs.Numbers.{width_of};
ghost use Rattle.vk_ast.specs.declared.expressions.BinOp.TheVariants.{Add, Sub};
ghost use Rattle.vk_sites.specs.Shapes.{as_integer, as_parameter, has_number, is_linear, is_uniform, kept, literal_shape, moved_shape, operator_shape, uniform_if, widens};

use vk_ast::BinOp;
use vk_code::Shape;
use vk_kinds::CType;
use vk_types::{Ty, common};

/// One word in all lanes.
pub fn is_uniform(shape: Shape) -> bool
    ensures { result ≡ is_uniform shape }
{
    matches!(shape, Shape::Uniform | Shape::Literal(_) | Shape::Same(_))
}

/// A word that goes on by one step from lane to lane.
pub fn is_linear(shape: Shape) -> bool
    ensures { result ≡ is_linear shape }
{
    matches!(shape, Shape::By(_) | Shape::Along(_))
}

/// Uniform under a condition, else of no shape that is known.
pub fn uniform_if(condition: bool) -> Shape
    ensures { result ≡ uniform_if condition }
{
    if condition {
        Shape::Uniform
    } else {
        Shape::Vector
    }
}

/// Whether the type has the number.
pub fn has_number(t: Ty, z: i128) -> bool
    ensures { result ≡ has_number t z }
{
    match t {
        Ty::I8 => -128 <= z && z <= 127,
        Ty::I16 => -32768 <= z && z <= 32767,
        Ty::I32 => -2147483648 <= z && z <= 2147483647,
        Ty::I64 => -9223372036854775808 <= z && z <= 9223372036854775807,
        Ty::U8 => 0 <= z && z <= 255,
        Ty::U16 => 0 <= z && z <= 65535,
        Ty::U32 => 0 <= z && z <= 4294967295,
        Ty::U64 => 0 <= z && z <= 18446744073709551615,
    }
}

// How many bits a number of the type has.
fn width(t: Ty) -> u32
    ensures { result ≡ width_of t }
{
    match t {
        Ty::I8 | Ty::U8 => 8,
        Ty::I16 | Ty::U16 => 16,
        Ty::I32 | Ty::U32 => 32,
        Ty::I64 | Ty::U64 => 64,
    }
}

fn widens(from: Ty, to: Ty) -> bool
    ensures { result ≡ widens from to }
{
    width(from) < width(to)
}

/// Of a literal with this value.
pub fn literal_shape(z: i128) -> Shape
    ensures { result ≡ literal_shape z }
{
    if has_number(Ty::I32, z) {
        Shape::Literal(z as i32)
    } else {
        Shape::Vector
    }
}

/// Behind a conversion from one integer type to another; `itself`: of the loop's variable itself.
pub fn as_integer(from: Ty, to: Ty, itself: bool, shape: Shape) -> Shape
    ensures { result ≡ as_integer from to itself shape }
{
    match shape {
        Shape::Vector | Shape::Uniform => shape,
        Shape::Literal(z) => {
            if has_number(to, i128::from(z)) {
                shape
            } else {
                Shape::Uniform
            }
        }
        Shape::Same(_) => { if from == to { shape } else { Shape::Uniform } }
        Shape::By(_) => {
            if widens(from, to) && !itself {
                Shape::Vector
            } else {
                shape
            }
        }
        Shape::Along(_) => kept(from, to, shape),
    }
}

/// Behind the conversion to the type of a parameter, of an argument with a number of a type or with a pointer.
pub fn as_parameter(from: Option<Ty>, to: CType, itself: bool, shape: Shape) -> Shape
    ensures { result ≡ as_parameter from to itself shape }
{
    match (from, to) {
        (Some(s), CType::Int(t)) => as_integer(s, t, itself, shape),
        _ => shape,
    }
}

// A linear operand that the conversion to the common type does not widen.
fn kept(from: Ty, to: Ty, shape: Shape) -> Shape
    ensures { result ≡ kept from to shape }
{
    if widens(from, to) {
        Shape::Vector
    } else {
        shape
    }
}

fn sum_shape(s: Ty, t: Ty, a: Shape, b: Shape) -> Shape
    ensures { result ≡ operator_shape Add s t a b }
{
    if is_uniform(a) && is_uniform(b) {
        return Shape::Uniform;
    }
    if is_linear(a) && is_uniform(b) {
        return kept(s, common(s, t), a);
    }
    if is_uniform(a) && is_linear(b) {
        return kept(t, common(s, t), b);
    }
    Shape::Vector
}

fn difference_shape(s: Ty, t: Ty, a: Shape, b: Shape) -> Shape
    ensures { result ≡ operator_shape Sub s t a b }
{
    if is_uniform(a) && is_uniform(b) {
        return Shape::Uniform;
    }
    if is_linear(a) && is_uniform(b) {
        return kept(s, common(s, t), a);
    }
    Shape::Vector
}

/// Of an operator on integers of the types `s` and `t`.
pub fn operator_shape(op: BinOp, s: Ty, t: Ty, a: Shape, b: Shape) -> Shape
    ensures { result ≡ operator_shape op s t a b }
{
    match op {
        BinOp::Add => sum_shape(s, t, a, b),
        BinOp::Sub => difference_shape(s, t, a, b),
        BinOp::Mul
        | BinOp::Div
        | BinOp::Rem
        | BinOp::And
        | BinOp::Or
        | BinOp::Xor
        | BinOp::Shl
        | BinOp::Shr
        | BinOp::Eq
        | BinOp::Ne
        | BinOp::Lt
        | BinOp::Le
        | BinOp::Gt
        | BinOp::Ge
        | BinOp::LogAnd
        | BinOp::LogOr => uniform_if(is_uniform(a) && is_uniform(b)),
    }
}

/// Of a pointer and an added number; `exactly`: the number is the loop's variable, and is added.
pub fn moved_shape(exactly: bool, pointer: Shape, number: Shape) -> Shape
    ensures { result ≡ moved_shape exactly pointer number }
{
    if is_linear(pointer) && is_uniform(number) {
        return pointer;
    }
    if is_uniform(pointer) && exactly {
        return Shape::By(1);
    }
    uniform_if(is_uniform(pointer) && is_uniform(number))
}
