// From an expression to lane code.

ghost use Rattle.std.specs.Prelude.{◌≡◌, ◌+◌, ◌*◌, ◌≤◌, ◌<◌, ◌&&◌, ℕ, length, IfOk, IsTrue, OnOk};
ghost use Rattle.vk_ast.specs.Tree.{binary, choice, expr_of, nodes_of};
ghost use Rattle.vk_ast.specs.declared.expressions.BinOp.TheVariants.{LogAnd, LogOr};
ghost use Rattle.vk_flat.specs.Emitters.{written_of};
ghost use Rattle.vk_flat.specs.Locals.{ArePlaces, Emits, is_numeric};

use crate::emitter::{Emitter, Place, Under};
use crate::locals::{Local, local_named, type_of};
use std::alloc::AllocError;
use vk_ast::{BinOp, Expr, ExprKind};
use vk_types::{Ty, common};

/// Appends the code of a numeric expression, and tells the place of its number.
#[cycle(emit)]
pub fn emit(
    emitter: &mut Emitter,
    locals: &[Local],
    e: &Expr,
    under: Under,
) -> Result<Place, AllocError>
    requires numeric { IsTrue (is_numeric locals.now (expr_of e.now)) }
    requires places { ArePlaces (written_of emitter.old) locals.now }
    requires params { emitter.old.params ≤ length emitter.old.regs.items }
    requires running { under.mask < under.free }
    requires masks { under.free ≤ emitter.old.masks }
    requires room { length emitter.old.regs.items + emitter.old.masks + 4 * (nodes_of (expr_of e.now)) < 65536 }
    ensures code { IfOk result (λ d. Emits (written_of emitter.old) (written_of emitter.new) locals.now (expr_of e.now) d under) }
    ensures params { OnOk result (emitter.new.params ≡ emitter.old.params) }
    ensures slots { OnOk result ((written_of emitter.new).slots ≡ (written_of emitter.old).slots) }
    ensures masks { OnOk result (emitter.old.masks ≤ emitter.new.masks) }
    ensures registers { OnOk result (length emitter.old.regs.items ≤ length emitter.new.regs.items) }
    ensures count { OnOk result (length emitter.new.regs.items + emitter.new.masks ≤ length emitter.old.regs.items + emitter.old.masks + 4 * (nodes_of (expr_of e.now))) }
{
    match &e.kind {
        ExprKind::Int(ty, value) => emitter.constant(*ty, *value, under),
        ExprKind::Name(id) => match local_named(locals, *id) {
            Some(local) => Ok(local.place),
            None => unreachable!(),
        },
        ExprKind::Cast(ty, operand) => {
            let a = emit(emitter, locals, operand, under)?;
            emitter.convert(a, *ty, under)
        }
        ExprKind::Unary(op, operand) => {
            let a = emit(emitter, locals, operand, under)?;
            emitter.unary(*op, a, under)
        }
        ExprKind::Binary(BinOp::LogAnd, left, right) => {
            emit_and(emitter, locals, left, right, under)
        }
        ExprKind::Binary(BinOp::LogOr, left, right) => {
            emit_or(emitter, locals, left, right, under)
        }
        ExprKind::Binary(op, left, right) => {
            let a = emit(emitter, locals, left, under)?;
            let b = emit(emitter, locals, right, under)?;
            emitter.binary(*op, a, b, under)
        }
        ExprKind::Cond(condition, first, second) => {
            emit_choice(emitter, locals, condition, first, second, under)
        }
        ExprKind::Index(_, _) | ExprKind::Deref(_) | ExprKind::Addr(_) | ExprKind::Call(_, _) =>
            unreachable!(),
    }
}

/// `left && right`
#[cycle(emit)]
fn emit_and(
    emitter: &mut Emitter,
    locals: &[Local],
    left: &Expr,
    right: &Expr,
    under: Under,
) -> Result<Place, AllocError>
    requires numeric { IsTrue (is_numeric locals.now (expr_of left.now) && is_numeric locals.now (expr_of right.now)) }
    requires places { ArePlaces (written_of emitter.old) locals.now }
    requires params { emitter.old.params ≤ length emitter.old.regs.items }
    requires running { under.mask < under.free }
    requires masks { under.free ≤ emitter.old.masks }
    requires room { length emitter.old.regs.items + emitter.old.masks + 4 * (1 + nodes_of (expr_of left.now) + nodes_of (expr_of right.now)) < 65536 }
    ensures code { (line token : ℕ) → IfOk result (λ d. Emits (written_of emitter.old) (written_of emitter.new) locals.now (binary line token LogAnd (expr_of left.now) (expr_of right.now)) d under) }
    ensures params { OnOk result (emitter.new.params ≡ emitter.old.params) }
    ensures slots { OnOk result ((written_of emitter.new).slots ≡ (written_of emitter.old).slots) }
    ensures masks { OnOk result (emitter.old.masks ≤ emitter.new.masks) }
    ensures registers { OnOk result (length emitter.old.regs.items ≤ length emitter.new.regs.items) }
    ensures count { OnOk result (length emitter.new.regs.items + emitter.new.masks ≤ length emitter.old.regs.items + emitter.old.masks + 4 * (1 + nodes_of (expr_of left.now) + nodes_of (expr_of right.now))) }
{
    let a = emit(emitter, locals, left, under)?;
    let d = emitter.cases(Ty::I32, a, under)?;
    let b = emit(emitter, locals, right, under.first_case())?;
    emitter.truth_into(b, d, under.first_case())?;
    emitter.constant_into(0, d, under.second_case())?;
    Ok(d)
}

/// `left || right`
#[cycle(emit)]
fn emit_or(
    emitter: &mut Emitter,
    locals: &[Local],
    left: &Expr,
    right: &Expr,
    under: Under,
) -> Result<Place, AllocError>
    requires numeric { IsTrue (is_numeric locals.now (expr_of left.now) && is_numeric locals.now (expr_of right.now)) }
    requires places { ArePlaces (written_of emitter.old) locals.now }
    requires params { emitter.old.params ≤ length emitter.old.regs.items }
    requires running { under.mask < under.free }
    requires masks { under.free ≤ emitter.old.masks }
    requires room { length emitter.old.regs.items + emitter.old.masks + 4 * (1 + nodes_of (expr_of left.now) + nodes_of (expr_of right.now)) < 65536 }
    ensures code { (line token : ℕ) → IfOk result (λ d. Emits (written_of emitter.old) (written_of emitter.new) locals.now (binary line token LogOr (expr_of left.now) (expr_of right.now)) d under) }
    ensures params { OnOk result (emitter.new.params ≡ emitter.old.params) }
    ensures slots { OnOk result ((written_of emitter.new).slots ≡ (written_of emitter.old).slots) }
    ensures masks { OnOk result (emitter.old.masks ≤ emitter.new.masks) }
    ensures registers { OnOk result (length emitter.old.regs.items ≤ length emitter.new.regs.items) }
    ensures count { OnOk result (length emitter.new.regs.items + emitter.new.masks ≤ length emitter.old.regs.items + emitter.old.masks + 4 * (1 + nodes_of (expr_of left.now) + nodes_of (expr_of right.now))) }
{
    let a = emit(emitter, locals, left, under)?;
    let d = emitter.cases(Ty::I32, a, under)?;
    emitter.constant_into(1, d, under.first_case())?;
    let b = emit(emitter, locals, right, under.second_case())?;
    emitter.truth_into(b, d, under.second_case())?;
    Ok(d)
}

/// `condition ? first : second`
#[cycle(emit)]
fn emit_choice(
    emitter: &mut Emitter,
    locals: &[Local],
    condition: &Expr,
    first: &Expr,
    second: &Expr,
    under: Under,
) -> Result<Place, AllocError>
    requires numeric { IsTrue (is_numeric locals.now (expr_of condition.now) && is_numeric locals.now (expr_of first.now) && is_numeric locals.now (expr_of second.now)) }
    requires places { ArePlaces (written_of emitter.old) locals.now }
    requires params { emitter.old.params ≤ length emitter.old.regs.items }
    requires running { under.mask < under.free }
    requires masks { under.free ≤ emitter.old.masks }
    requires room { length emitter.old.regs.items + emitter.old.masks + 4 * (1 + nodes_of (expr_of condition.now) + nodes_of (expr_of first.now) + nodes_of (expr_of second.now)) < 65536 }
    ensures code { (line token : ℕ) → IfOk result (λ d. Emits (written_of emitter.old) (written_of emitter.new) locals.now (choice line token (expr_of condition.now) (expr_of first.now) (expr_of second.now)) d under) }
    ensures params { OnOk result (emitter.new.params ≡ emitter.old.params) }
    ensures slots { OnOk result ((written_of emitter.new).slots ≡ (written_of emitter.old).slots) }
    ensures masks { OnOk result (emitter.old.masks ≤ emitter.new.masks) }
    ensures registers { OnOk result (length emitter.old.regs.items ≤ length emitter.new.regs.items) }
    ensures count { OnOk result (length emitter.new.regs.items + emitter.new.masks ≤ length emitter.old.regs.items + emitter.old.masks + 4 * (1 + nodes_of (expr_of condition.now) + nodes_of (expr_of first.now) + nodes_of (expr_of second.now))) }
{
    let ty = common(type_of(locals, first), type_of(locals, second));
    let a = emit(emitter, locals, condition, under)?;
    let d = emitter.cases(ty, a, under)?;
    let b = emit(emitter, locals, first, under.first_case())?;
    emitter.convert_into(b, d, under.first_case())?;
    let c = emit(emitter, locals, second, under.second_case())?;
    emitter.convert_into(c, d, under.second_case())?;
    Ok(d)
}
