// What is done with operands that were evaluated.

ghost use Rattle.std.specs.Prelude.{◌≡◌, IfOk, IfSome, List, neg_ℤ, pos};
ghost use Rattle.std.specs.Option.{option_map};
ghost use Rattle.vk_types.specs.declared.types.Ty.TheVariants.{I32};
ghost use Rattle.vk_numbers.specs.Operators.{binary_number, is_on, unary_number};
ghost use Rattle.vk_types.specs.Numbers.{wrap_number};
ghost use Rattle.vk_meaning.specs.World.{Array, Event, World};
ghost use Rattle.vk_meaning.specs.Data.{given, loaded, moved, number, number_in};
ghost use Rattle.vk_meaning.specs.Expressions.{answered, moved_by};
ghost use Rattle.vk_reading.specs.Cells.{AreRowsOf, HaveWords, memory_in};
ghost use Rattle.vk_reading.specs.Held.{IsHeld, datum_of, value_in};
ghost use Rattle.vk_reading_steps.specs.Runs.{GoesOn, Run, run_of, settled};
ghost use Rattle.vk_reading_steps.specs.Deciding.{decided_by};
ghost use Rattle.vk_io.specs.Sink.{SinkState};

use vk_ast::{BinOp, UnOp};
use vk_kinds::CType;
use vk_numbers::{binary_type, unary_type};
use vk_reading::held::{as_type, is_on, number_in};
use vk_reading::operators::{binary, unary};
use vk_reading::pointers::{backwards, forwards};
use vk_reading::{Cells, Halt, Held, Place};
use vk_types::{Stop, Ty, wrap};

/// A value or a stop, as an evaluation answers it.
pub fn settled(r: Result<Held, Stop>) -> Result<Held, Halt>
    ensures { result ≡ settled r }
{
    match r {
        Ok(held) => Ok(held),
        Err(stop) => Err(Halt::Halted(stop)),
    }
}

// The value of `op x` for an operand of the type `s`.
fn unary_held(op: UnOp, s: Ty, x: Held) -> Result<Held, Stop>
    requires { IsHeld x }
    ensures value { (w : World) → value_in result w ≡ answered (unary_number op s (number_in (datum_of x))) w }
    ensures held { IfOk result IsHeld }
{
    match unary(op, s, number_in(x)) {
        Ok(word) => Ok(Held::Number {
            ty: unary_type(op, s),
            word,
        }),
        Err(stop) => Err(stop),
    }
}

/// Goes on with `op x` for an operand of the type `s`.
pub fn unary_of(op: UnOp, s: Ty, x: Result<Held, Halt>) -> Result<Held, Halt>
    requires { IfOk x IsHeld }
    ensures goes { (arrays : List Array) (now : Run) → GoesOn arrays now x (λ d. answered (unary_number op s (number_in d))) result }
    ensures held { IfOk result IsHeld }
{
    match x {
        Ok(x) => settled(unary_held(op, s, x)),
        Err(halt) => Err(halt),
    }
}

// The value of `x op y` for operands of the types `s` and `t`, where both were evaluated.
fn binary_held(op: BinOp, s: Ty, t: Ty, x: Held, y: Held) -> Result<Held, Stop>
    requires left { IsHeld x }
    requires right { IsHeld y }
    ensures value { (w : World) → value_in result w ≡ answered (binary_number op s t (number_in (datum_of x)) (number_in (datum_of y))) w }
    ensures held { IfOk result IsHeld }
{
    match binary(op, s, t, number_in(x), number_in(y)) {
        Ok(word) => Ok(Held::Number {
            ty: binary_type(op, s, t),
            word,
        }),
        Err(stop) => Err(stop),
    }
}

/// Goes on with `x op y` for operands of the types `s` and `t`.
pub fn binary_of(op: BinOp, s: Ty, t: Ty, x: Held, y: Result<Held, Halt>) -> Result<Held, Halt>
    requires left { IsHeld x }
    requires right { IfOk y IsHeld }
    ensures goes { (arrays : List Array) (now : Run) →
        GoesOn arrays now y (λ d. answered (binary_number op s t (number_in (datum_of x)) (number_in d))) result }
    ensures held { IfOk result IsHeld }
{
    match y {
        Ok(y) => settled(binary_held(op, s, t, x, y)),
        Err(halt) => Err(halt),
    }
}

/// Goes on with the number as one of the type.
pub fn converted_to(ty: Ty, x: Result<Held, Halt>) -> Result<Held, Halt>
    requires { IfOk x IsHeld }
    ensures goes { (arrays : List Array) (now : Run) → GoesOn arrays now x (λ d. given (number (wrap_number ty (number_in d)))) result }
    ensures held { IfOk result IsHeld }
{
    match x {
        Ok(x) => settled(Ok(as_type(x, CType::Int(ty)))),
        Err(halt) => Err(halt),
    }
}

// The pointer, moved forwards by a number.
fn forwards_held(p: Held, n: Held) -> Result<Held, Stop>
    requires { IsHeld n }
    ensures value { (w : World) → value_in result w ≡ moved (datum_of p) (number_in (datum_of n)) w }
    ensures held { IfOk result IsHeld }
{
    match p {
        Held::Pointer { to, array, offset } => {
            forwards(Place { to, array, offset }, number_in(n))
        }
        Held::Number { .. } | Held::Nothing => Err(Stop::Bounds),
    }
}

// The pointer, moved backwards by a number.
fn backwards_held(p: Held, n: Held) -> Result<Held, Stop>
    requires { IsHeld n }
    ensures value { (w : World) → value_in result w ≡ moved (datum_of p) (neg_ℤ (number_in (datum_of n))) w }
    ensures held { IfOk result IsHeld }
{
    match p {
        Held::Pointer { to, array, offset } => {
            backwards(Place { to, array, offset }, number_in(n))
        }
        Held::Number { .. } | Held::Nothing => Err(Stop::Bounds),
    }
}

/// Goes on with the pointer, moved forwards.
pub fn element_of(p: Held, n: Result<Held, Halt>) -> Result<Held, Halt>
    requires { IfOk n IsHeld }
    ensures goes { (arrays : List Array) (now : Run) → GoesOn arrays now n (λ d. moved (datum_of p) (number_in d)) result }
    ensures held { IfOk result IsHeld }
{
    match n {
        Ok(n) => settled(forwards_held(p, n)),
        Err(halt) => Err(halt),
    }
}

// The pointer, moved by a sum or a difference.
fn moved_held(op: BinOp, p: Held, n: Held) -> Result<Held, Stop>
    requires { IsHeld n }
    ensures value { (w : World) → value_in result w ≡ moved_by op (datum_of p) (number_in (datum_of n)) w }
    ensures held { IfOk result IsHeld }
{
    match op {
        BinOp::Sub => backwards_held(p, n),
        _ => forwards_held(p, n),
    }
}

/// Goes on with the pointer, moved by a sum or a difference.
pub fn moved_of(op: BinOp, p: Held, n: Result<Held, Halt>) -> Result<Held, Halt>
    requires { IfOk n IsHeld }
    ensures goes { (arrays : List Array) (now : Run) → GoesOn arrays now n (λ d. moved_by op (datum_of p) (number_in d)) result }
    ensures held { IfOk result IsHeld }
{
    match n {
        Ok(n) => settled(moved_held(op, p, n)),
        Err(halt) => Err(halt),
    }
}

// The number in the element that a pointer points to, as one of the type.
fn loaded_held(cells: &Cells, to: Ty, p: Held) -> Result<Held, Stop>
    requires { HaveWords cells.now.rows.items }
    ensures value { (arrays : List Array) (events : List Event) → AreRowsOf cells.now.rows.items arrays
        → value_in result (record { memory = memory_in cells.now.rows.items; events = events })
        ≡ loaded arrays to (datum_of p) (record { memory = memory_in cells.now.rows.items; events = events }) }
    ensures held { IfOk result IsHeld }
{
    match p {
        Held::Pointer {
            to: _,
            array,
            offset,
        } => cells.load(Place { to, array, offset }),
        Held::Number { .. } | Held::Nothing => Err(Stop::Bounds),
    }
}

/// Goes on with the number in the element that the pointer points to, as one of the type.
pub fn loaded_of(cells: &Cells, to: Ty, p: Result<Held, Halt>) -> Result<Held, Halt>
    requires { HaveWords cells.now.rows.items }
    ensures goes { (arrays : List Array) (out : SinkState) → GoesOn arrays (run_of cells.now.rows.items out) p (loaded arrays to) result }
    ensures held { IfOk p IsHeld → IfOk result IsHeld }
{
    match p {
        Ok(p) => settled(loaded_held(cells, to, p)),
        Err(halt) => Err(halt),
    }
}

/// An integer literal.
pub fn literal(ty: Ty, n: u64) -> Held
    ensures value { datum_of result ≡ number (wrap_number ty (pos n)) }
    ensures held { IsHeld result }
{
    Held::Number {
        ty,
        word: wrap(ty, i128::from(n)),
    }
}

// 1 or 0, as a truth value of C.
fn truth_value(n: i128) -> Held
    ensures value { datum_of result ≡ number (wrap_number I32 n) }
    ensures held { IsHeld result }
{
    Held::Number {
        ty: Ty::I32,
        word: wrap(Ty::I32, n),
    }
}

/// The value of `x && y` and `x || y` where the first operand decides (C17 6.5.13, 6.5.14).
pub fn decided(op: BinOp, x: Held) -> Option<Held>
    requires { IsHeld x }
    ensures value { option_map datum_of result ≡ decided_by op (is_on (number_in (datum_of x))) }
    ensures held { IfSome result IsHeld }
{
    match op {
        BinOp::LogAnd => {
            if is_on(number_in(x)) {
                return None;
            }
            Some(truth_value(0))
        }
        BinOp::LogOr => {
            if is_on(number_in(x)) {
                return Some(truth_value(1));
            }
            None
        }
        _ => None,
    }
}
