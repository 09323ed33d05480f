// From an expression to lane code.

ghost use Rattle.std.specs.Prelude.{◌≡◌, ◌+◌, ◌*◌, ◌&&◌, ℕ, false, IfOk, IsTrue, OnOk, Some, is_some};
ghost use Rattle.vk_ast.specs.Tree.{binary, choice, expr_of, index, nodes_of};
ghost use Rattle.vk_ast.specs.declared.expressions.BinOp.TheVariants.{LogAnd, LogOr};
ghost use Rattle.vk_numbers.specs.Laws.{is_logical};
ghost use Rattle.vk_flat.specs.Emitters.{written_of};
ghost use Rattle.vk_flat_trees.specs.Emits.{CanEmit, EmitsNumber, EmitsPlace, EmitsPointer, HasGrown};
ghost use Rattle.vk_flat_trees.specs.Names.{element, is_numeric, is_zero, placing, pointing};

use crate::types::type_of;
use std::alloc::AllocError;
use vk_ast::{BinOp, Expr, ExprKind};
use vk_flat::{Emitter, Place, Under};
use vk_flat_pointers::homes::home_named;
use vk_flat_pointers::moving::{advance, load};
use vk_flat_pointers::{Home, Named, Pointer};
use vk_types::{Ty, common};

/// Appends the code of an expression that gives a number, and tells the place of the number.
#[cycle(emit)]
pub fn emit(
    emitter: &mut Emitter,
    names: &[Named],
    e: &Expr,
    under: Under,
) -> Result<Place, AllocError>
    requires numeric { IsTrue (is_numeric names.now (expr_of e.now)) }
    requires ready { CanEmit emitter.old names.now under (4 * nodes_of (expr_of e.now)) }
    ensures code { IfOk result (λ d. EmitsNumber (written_of emitter.old) (written_of emitter.new) names.now (expr_of e.now) d under) }
    ensures grown { OnOk result (HasGrown emitter.old emitter.new (4 * nodes_of (expr_of e.now))) }
{
    match &e.kind {
        ExprKind::Int(ty, value) => emitter.constant(*ty, *value, under),
        ExprKind::Name(id) => match home_named(names, *id) {
            Some(Home::Number(place)) => Ok(place),
            _ => unreachable!(),
        },
        ExprKind::Cast(ty, operand) => {
            let a = emit(emitter, names, operand, under)?;
            emitter.convert(a, *ty, under)
        }
        ExprKind::Unary(op, operand) => {
            let a = emit(emitter, names, operand, under)?;
            emitter.unary(*op, a, under)
        }
        ExprKind::Binary(BinOp::LogAnd, left, right) => {
            emit_and(emitter, names, left, right, under)
        }
        ExprKind::Binary(BinOp::LogOr, left, right) => emit_or(emitter, names, left, right, under),
        ExprKind::Binary(op, left, right) => emit_binary(emitter, names, *op, left, right, under),
        ExprKind::Cond(condition, first, second) => {
            emit_choice(emitter, names, condition, first, second, under)
        }
        ExprKind::Index(base, subscript) => {
            let p = emit_element(emitter, names, base, subscript, under)?;
            load(emitter, p, under)
        }
        ExprKind::Deref(operand) => {
            let p = emit_pointer(emitter, names, operand, under)?;
            load(emitter, p, under)
        }
        ExprKind::Addr(_) | ExprKind::Call(_, _) => unreachable!(),
    }
}

/// A binary operator on two numbers, but for `&&` and `||`.
#[cycle(emit)]
fn emit_binary(
    emitter: &mut Emitter,
    names: &[Named],
    op: BinOp,
    left: &Expr,
    right: &Expr,
    under: Under,
) -> Result<Place, AllocError>
    requires plain { is_logical op ≡ false }
    requires numeric { IsTrue (is_numeric names.now (expr_of left.now) && is_numeric names.now (expr_of right.now)) }
    requires ready { CanEmit emitter.old names.now under (4 * (1 + nodes_of (expr_of left.now) + nodes_of (expr_of right.now))) }
    ensures code { (line token : ℕ) → IfOk result (λ d. EmitsNumber (written_of emitter.old) (written_of emitter.new) names.now (binary line token op (expr_of left.now) (expr_of right.now)) d under) }
    ensures grown { OnOk result (HasGrown emitter.old emitter.new (4 * (1 + nodes_of (expr_of left.now) + nodes_of (expr_of right.now)))) }
{
    let a = emit(emitter, names, left, under)?;
    let b = emit(emitter, names, right, under)?;
    emitter.binary(op, a, b, under)
}

/// `left && right`
#[cycle(emit)]
fn emit_and(
    emitter: &mut Emitter,
    names: &[Named],
    left: &Expr,
    right: &Expr,
    under: Under,
) -> Result<Place, AllocError>
    requires numeric { IsTrue (is_numeric names.now (expr_of left.now) && is_numeric names.now (expr_of right.now)) }
    requires ready { CanEmit emitter.old names.now under (4 * (1 + nodes_of (expr_of left.now) + nodes_of (expr_of right.now))) }
    ensures code { (line token : ℕ) → IfOk result (λ d. EmitsNumber (written_of emitter.old) (written_of emitter.new) names.now (binary line token LogAnd (expr_of left.now) (expr_of right.now)) d under) }
    ensures grown { OnOk result (HasGrown emitter.old emitter.new (4 * (1 + nodes_of (expr_of left.now) + nodes_of (expr_of right.now)))) }
{
    let a = emit(emitter, names, left, under)?;
    let d = emitter.cases(Ty::I32, a, under)?;
    let b = emit(emitter, names, right, under.first_case())?;
    emitter.truth_into(b, d, under.first_case())?;
    emitter.constant_into(0, d, under.second_case())?;
    Ok(d)
}

/// `left || right`
#[cycle(emit)]
fn emit_or(
    emitter: &mut Emitter,
    names: &[Named],
    left: &Expr,
    right: &Expr,
    under: Under,
) -> Result<Place, AllocError>
    requires numeric { IsTrue (is_numeric names.now (expr_of left.now) && is_numeric names.now (expr_of right.now)) }
    requires ready { CanEmit emitter.old names.now under (4 * (1 + nodes_of (expr_of left.now) + nodes_of (expr_of right.now))) }
    ensures code { (line token : ℕ) → IfOk result (λ d. EmitsNumber (written_of emitter.old) (written_of emitter.new) names.now (binary line token LogOr (expr_of left.now) (expr_of right.now)) d under) }
    ensures grown { OnOk result (HasGrown emitter.old emitter.new (4 * (1 + nodes_of (expr_of left.now) + nodes_of (expr_of right.now)))) }
{
    let a = emit(emitter, names, left, under)?;
    let d = emitter.cases(Ty::I32, a, under)?;
    emitter.constant_into(1, d, under.first_case())?;
    let b = emit(emitter, names, right, under.second_case())?;
    emitter.truth_into(b, d, under.second_case())?;
    Ok(d)
}

/// `condition ? first : second`
#[cycle(emit)]
fn emit_choice(
    emitter: &mut Emitter,
    names: &[Named],
    condition: &Expr,
    first: &Expr,
    second: &Expr,
    under: Under,
) -> Result<Place, AllocError>
    requires numeric { IsTrue (is_numeric names.now (expr_of condition.now) && is_numeric names.now (expr_of first.now) && is_numeric names.now (expr_of second.now)) }
    requires ready { CanEmit emitter.old names.now under (4 * (1 + nodes_of (expr_of condition.now) + nodes_of (expr_of first.now) + nodes_of (expr_of second.now))) }
    ensures code { (line token : ℕ) → IfOk result (λ d. EmitsNumber (written_of emitter.old) (written_of emitter.new) names.now (choice line token (expr_of condition.now) (expr_of first.now) (expr_of second.now)) d under) }
    ensures grown { OnOk result (HasGrown emitter.old emitter.new (4 * (1 + nodes_of (expr_of condition.now) + nodes_of (expr_of first.now) + nodes_of (expr_of second.now)))) }
{
    let ty = common(type_of(names, first), type_of(names, second));
    let a = emit(emitter, names, condition, under)?;
    let d = emitter.cases(ty, a, under)?;
    let b = emit(emitter, names, first, under.first_case())?;
    emitter.convert_into(b, d, under.first_case())?;
    let c = emit(emitter, names, second, under.second_case())?;
    emitter.convert_into(c, d, under.second_case())?;
    Ok(d)
}

/// Appends the code of an expression that gives a pointer.
#[cycle(emit)]
pub fn emit_pointer(
    emitter: &mut Emitter,
    names: &[Named],
    e: &Expr,
    under: Under,
) -> Result<Pointer, AllocError>
    requires pointing { IsTrue (is_some (pointing names.now (expr_of e.now))) }
    requires ready { CanEmit emitter.old names.now under (4 * nodes_of (expr_of e.now)) }
    ensures code { IfOk result (λ d. EmitsPointer (written_of emitter.old) (written_of emitter.new) names.now (expr_of e.now) d under) }
    ensures moves { IfOk result (λ d. pointing names.now (expr_of e.now) ≡ Some d.moves) }
    ensures grown { OnOk result (HasGrown emitter.old emitter.new (4 * nodes_of (expr_of e.now))) }
{
    match &e.kind {
        ExprKind::Name(id) => match home_named(names, *id) {
            Some(Home::Pointer(pointer)) => Ok(pointer),
            _ => unreachable!(),
        },
        ExprKind::Addr(place) => emit_place(emitter, names, place, under),
        ExprKind::Binary(_, base, by) => {
            let p = emit_pointer(emitter, names, base, under)?;
            let n = emit(emitter, names, by, under)?;
            advance(emitter, p, n, under)
        }
        _ => unreachable!(),
    }
}

/// Appends the code of a pointer to a place in memory.
#[cycle(emit)]
pub fn emit_place(
    emitter: &mut Emitter,
    names: &[Named],
    e: &Expr,
    under: Under,
) -> Result<Pointer, AllocError>
    requires placing { IsTrue (is_some (placing names.now (expr_of e.now))) }
    requires ready { CanEmit emitter.old names.now under (4 * nodes_of (expr_of e.now)) }
    ensures code { IfOk result (λ d. EmitsPlace (written_of emitter.old) (written_of emitter.new) names.now (expr_of e.now) d under) }
    ensures moves { IfOk result (λ d. placing names.now (expr_of e.now) ≡ Some d.moves) }
    ensures grown { OnOk result (HasGrown emitter.old emitter.new (4 * nodes_of (expr_of e.now))) }
{
    match &e.kind {
        ExprKind::Index(base, subscript) => emit_element(emitter, names, base, subscript, under),
        ExprKind::Deref(operand) => emit_pointer(emitter, names, operand, under),
        _ => unreachable!(),
    }
}

/// `base[subscript]`, as a place: of a pointer that may not be moved, the first element.
#[cycle(emit)]
fn emit_element(
    emitter: &mut Emitter,
    names: &[Named],
    base: &Expr,
    subscript: &Expr,
    under: Under,
) -> Result<Pointer, AllocError>
    requires element { IsTrue (is_some (element (pointing names.now (expr_of base.now)) (is_zero (expr_of subscript.now)) (is_numeric names.now (expr_of subscript.now)))) }
    requires ready { CanEmit emitter.old names.now under (4 * (1 + nodes_of (expr_of base.now) + nodes_of (expr_of subscript.now))) }
    ensures code { (line token : ℕ) → IfOk result (λ d. EmitsPlace (written_of emitter.old) (written_of emitter.new) names.now (index line token (expr_of base.now) (expr_of subscript.now)) d under) }
    ensures moves { IfOk result (λ d. element (pointing names.now (expr_of base.now)) (is_zero (expr_of subscript.now)) (is_numeric names.now (expr_of subscript.now)) ≡ Some d.moves) }
    ensures grown { OnOk result (HasGrown emitter.old emitter.new (4 * (nodes_of (expr_of base.now) + nodes_of (expr_of subscript.now)) + 1)) }
{
    let p = emit_pointer(emitter, names, base, under)?;
    if !p.moves {
        return Ok(p);
    }
    let n = emit(emitter, names, subscript, under)?;
    advance(emitter, p, n, under)
}
