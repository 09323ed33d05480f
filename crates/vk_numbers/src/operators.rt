// What operators give on numbers of these types.

ghost use Rattle.std.specs.Prelude.{◌≡◌, IfOk, ℤ, Result};
ghost use Rattle.vk_types.specs.declared.types.Stop.{Stop};
ghost use Rattle.vk_types.specs.Conversions.{common_type};
ghost use Rattle.vk_types.specs.Numbers.{IsCanonical, IsInRange, number_of, wrap_number};
ghost use Rattle.vk_types.specs.Operators.{HasNumber, result_type};
ghost use Rattle.vk_numbers.specs.Types.{binary_type, unary_type};
ghost use Rattle.vk_numbers.specs.Values.{converted, value_of_result, with_value};
ghost use Rattle.vk_numbers.specs.Operators.{binary_number, binary_value, choice_value, is_on, result_in, shift_result, unary_number, unary_value};
ghost use Rattle.vk_numbers.specs.Inner.Deciding.{decides};

use vk_ast::{BinOp, UnOp};
use vk_types::{Op1, Op2, Stop, Ty, Word, common, number, op1, op2, promote, wrap};

/// A number as one of the type (C17 6.3.1.3, with signed types as unsigned ones).
pub fn convert(t: Ty, z: i128) -> i128
    ensures number { result ≡ wrap_number t z }
    ensures in_range { IsInRange t result }
{
    number(t, wrap(t, z))
}

// The type of an operator's result.
fn result_type(op: Op2, t: Ty) -> Ty
    ensures { result ≡ result_type op t }
{
    match op {
        Op2::Eq | Op2::Ne | Op2::Lt | Op2::Le => Ty::I32,
        Op2::Add
        | Op2::Sub
        | Op2::Mul
        | Op2::Div
        | Op2::Rem
        | Op2::And
        | Op2::Or
        | Op2::Xor
        | Op2::Shl
        | Op2::Shr => t,
    }
}

// The number of a word that an operator gave.
fn number_of(t: Ty, word: Result<Word, Stop>) -> Result<i128, Stop>
    requires canonical { IfOk word (λ w. IsCanonical t w.0) }
    ensures number { (r : Result ℤ Stop) → HasNumber t word r → result ≡ r }
    ensures in_range { IfOk result (λ z. IsInRange t z) }
{
    match word {
        Ok(word) => Ok(number(t, word)),
        Err(stop) => Err(stop),
    }
}

// The operator on numbers that are converted to this type first.
fn result_in(op: Op2, t: Ty, x: i128, y: i128) -> Result<i128, Stop>
    ensures number { result ≡ result_in op t x y }
    ensures in_range { IfOk result (λ z. IsInRange (result_type op t) z) }
{
    number_of(result_type(op, t), op2(op, t, wrap(t, x), wrap(t, y), t))
}

// The word of a number of the type's range.
#[tactic(auto, using(crate::proofs::Numbers::wrap_keeps))]
fn word_of(t: Ty, z: i128) -> Word
    requires { IsInRange t z }
    ensures number { number_of t result.0 ≡ z }
    ensures canonical { IsCanonical t result.0 }
{
    wrap(t, z)
}

// A shift: the left operand is converted to this type.
fn shift_result(op: Op2, t: Ty, x: i128, right: Ty, y: i128) -> Result<i128, Stop>
    requires { IsInRange right y }
    ensures number { result ≡ shift_result op t x y }
    ensures in_range { IfOk result (λ z. IsInRange (result_type op t) z) }
{
    number_of(
        result_type(op, t),
        op2(op, t, wrap(t, x), word_of(right, y), right),
    )
}

// Whether a condition holds.
fn is_on(z: i128) -> bool
    ensures { result ≡ is_on z }
{
    z != 0
}

// On a number of the type `t`.
fn unary_number(op: UnOp, t: Ty, z: i128) -> Result<i128, Stop>
    ensures number { result ≡ unary_number op t z }
    ensures in_range { IfOk result (λ n. IsInRange (unary_type op t) n) }
{
    let p = promote(t);
    match op {
        UnOp::Plus => Ok(convert(p, z)),
        UnOp::Neg => Ok(number(p, op1(Op1::Neg, p, wrap(p, z)))),
        UnOp::Not => Ok(number(p, op1(Op1::Not, p, wrap(p, z)))),
        UnOp::LogNot => result_in(Op2::Eq, p, z, 0),
    }
}

// On numbers of the types `s` and `t`; of `&&` and `||` the result where the first operand does not decide.
fn binary_number(op: BinOp, s: Ty, t: Ty, x: i128, y: i128) -> Result<i128, Stop>
    requires { IsInRange t y }
    ensures number { result ≡ binary_number op s t x y }
    ensures in_range { IfOk result (λ z. IsInRange (binary_type op s t) z) }
{
    let c = common(s, t);
    match op {
        BinOp::Add => result_in(Op2::Add, c, x, y),
        BinOp::Sub => result_in(Op2::Sub, c, x, y),
        BinOp::Mul => result_in(Op2::Mul, c, x, y),
        BinOp::Div => result_in(Op2::Div, c, x, y),
        BinOp::Rem => result_in(Op2::Rem, c, x, y),
        BinOp::And => result_in(Op2::And, c, x, y),
        BinOp::Or => result_in(Op2::Or, c, x, y),
        BinOp::Xor => result_in(Op2::Xor, c, x, y),
        BinOp::Shl => shift_result(Op2::Shl, promote(s), x, t, y),
        BinOp::Shr => shift_result(Op2::Shr, promote(s), x, t, y),
        BinOp::Eq => result_in(Op2::Eq, c, x, y),
        BinOp::Ne => result_in(Op2::Ne, c, x, y),
        BinOp::Lt => result_in(Op2::Lt, c, x, y),
        BinOp::Le => result_in(Op2::Le, c, x, y),
        BinOp::Gt => result_in(Op2::Lt, c, y, x),
        BinOp::Ge => result_in(Op2::Le, c, y, x),
        BinOp::LogAnd | BinOp::LogOr => Ok(i128::from(is_on(y))),
    }
}

// Whether the first operand of `&&` or `||` decides.
fn decides(op: BinOp, x: i128) -> bool
    ensures { result ≡ decides op x }
{
    match op {
        BinOp::LogAnd => !is_on(x),
        BinOp::LogOr => is_on(x),
        BinOp::Add
        | BinOp::Sub
        | BinOp::Mul
        | BinOp::Div
        | BinOp::Rem
        | BinOp::And
        | BinOp::Or
        | BinOp::Xor
        | BinOp::Shl
        | BinOp::Shr
        | BinOp::Eq
        | BinOp::Ne
        | BinOp::Lt
        | BinOp::Le
        | BinOp::Gt
        | BinOp::Ge => false,
    }
}

/// A value as one of the type.
pub fn converted(t: Ty, value: Result<i128, Stop>) -> Result<i128, Stop>
    ensures value { value_of_result result ≡ with_value (value_of_result value) (converted t) }
    ensures in_range { IfOk result (λ z. IsInRange t z) }
{
    match value {
        Ok(z) => Ok(convert(t, z)),
        Err(stop) => Err(stop),
    }
}

/// A unary operator on a value of the type `t`.
pub fn unary_value(op: UnOp, t: Ty, value: Result<i128, Stop>) -> Result<i128, Stop>
    ensures value { value_of_result result ≡ with_value (value_of_result value) (unary_value op t) }
    ensures in_range { IfOk result (λ z. IsInRange (unary_type op t) z) }
{
    match value {
        Ok(z) => unary_number(op, t, z),
        Err(stop) => Err(stop),
    }
}

/// A binary operator on values of the types `s` and `t`, of which the right one is of its type's range.
#[tactic(auto, using(crate::proofs::Deciding::decided, crate::proofs::Deciding::undecided, crate::proofs::Deciding::stopped))]
pub fn binary_value(
    op: BinOp,
    s: Ty,
    t: Ty,
    left: Result<i128, Stop>,
    right: Result<i128, Stop>,
) -> Result<i128, Stop>
    requires { IfOk right (λ z. IsInRange t z) }
    ensures value { value_of_result result ≡ binary_value op s t (value_of_result left) (value_of_result right) }
    ensures in_range { IfOk result (λ z. IsInRange (binary_type op s t) z) }
{
    match left {
        Err(stop) => Err(stop),
        Ok(x) => {
            if decides(op, x) {
                return Ok(i128::from(is_on(x)));
            }
            match right {
                Ok(y) => binary_number(op, s, t, x, y),
                Err(stop) => Err(stop),
            }
        }
    }
}

/// The second or third operand of `?:`, which have the types `s` and `t`, in their common type.
pub fn choice_value(
    s: Ty,
    t: Ty,
    condition: Result<i128, Stop>,
    first: Result<i128, Stop>,
    second: Result<i128, Stop>,
) -> Result<i128, Stop>
    ensures value { value_of_result result ≡ choice_value s t (value_of_result condition) (value_of_result first) (value_of_result second) }
    ensures in_range { IfOk result (λ z. IsInRange (common_type s t) z) }
{
    match condition {
        Err(stop) => Err(stop),
        Ok(0) => converted(common(s, t), second),
        Ok(_) => converted(common(s, t), first),
    }
}
