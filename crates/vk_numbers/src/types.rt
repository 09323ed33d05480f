// The types that operators give.

ghost use Rattle.std.specs.Prelude.{◌≡◌};
ghost use Rattle.vk_numbers.specs.Types.{binary_type, unary_type};

use vk_ast::{BinOp, UnOp};
use vk_types::{Ty, common, promote};

/// The type of a unary operator's result (C17 6.5.3.3).
pub fn unary_type(op: UnOp, t: Ty) -> Ty
    ensures { result ≡ unary_type op t }
{
    match op {
        UnOp::Plus | UnOp::Neg | UnOp::Not => promote(t),
        UnOp::LogNot => Ty::I32,
    }
}

/// The type of a binary operator's result (C17 6.5.5 to 6.5.14).
pub fn binary_type(op: BinOp, s: Ty, t: Ty) -> Ty
    ensures { result ≡ binary_type op s t }
{
    match op {
        BinOp::Add
        | BinOp::Sub
        | BinOp::Mul
        | BinOp::Div
        | BinOp::Rem
        | BinOp::And
        | BinOp::Or
        | BinOp::Xor => common(s, t),
        BinOp::Shl | BinOp::Shr => promote(s),
        BinOp::Eq
        | BinOp::Ne
        | BinOp::Lt
        | BinOp::Le
        | BinOp::Gt
        | BinOp::Ge
        | BinOp::LogAnd
        | BinOp::LogOr => Ty::I32,
    }
}
