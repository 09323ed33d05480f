// Statements that evaluate an expression, and those that give a variable its value.

ghost use Rattle.std.specs.Prelude.{◌≡◌, ◌+◌, ◌<◌, ◌++◌, ◌∷◌, [], ℕ, Bool, IfOk, IsTrue, None, OnOk, Ok, Some};
ghost use Rattle.vk_types.specs.Numbers.{word_of, wrap_number};
ghost use Rattle.vk_ast.specs.Statements.{assign, local, value};
ghost use Rattle.vk_ast.specs.Tree.{expr_of, nodes_of};
ghost use Rattle.vk_lane.specs.Writes.{Writes};
ghost use Rattle.vk_construct.specs.Adds.{Adds};
ghost use Rattle.vk_construct.specs.Applies.{number_at};
ghost use Rattle.vk_construct_statements.specs.Follows.{ReturnPlace};
ghost use Rattle.vk_flat.specs.Emitters.{HasBase, IsPlace, written_of};
ghost use Rattle.vk_flat.specs.Locals.{is_numeric};
ghost use Rattle.vk_flat_statements.specs.Flat.{is_assigning, is_variable, with_name};
ghost use Rattle.vk_flat_statements.specs.Frames.{HasGrown, IsReady, guards_of};
ghost use Rattle.vk_flat_statements.specs.Statements.{EmitsStatement};

use crate::guards::Guards;
use std::alloc::AllocError;
use vk_ast::{BinOp, Expr, ExprKind, NameId};
use vk_code::Operation;
use vk_flat::expression::emit;
use vk_flat::locals::{Local, local_named};
use vk_flat::{Emitter, Place};
use vk_types::{Ty, Word};

/// Under a mask, 0 comes into a register.
pub fn clear(emitter: &mut Emitter, d: Place, mask: u16) -> Result<(), AllocError>
    requires running { mask < emitter.old.masks }
    requires place { IsPlace (written_of emitter.old) d }
    ensures code { OnOk result (Adds (written_of emitter.old) (written_of emitter.new) (λ q. Writes mask d.register (λ j h. Ok 0)) 1 0) }
    ensures base { OnOk result (HasBase emitter.old emitter.new 0) }
{
    emitter.put(
        mask,
        Operation::Const {
            ty: d.ty,
            d: d.register,
            value: Word(0),
        },
    )
}

/// Under a mask, the number in `a` comes into the register `d`, as one of its type.
pub fn store(emitter: &mut Emitter, a: Place, d: Place, mask: u16) -> Result<(), AllocError>
    requires running { mask < emitter.old.masks }
    requires operand { IsPlace (written_of emitter.old) a }
    requires place { IsPlace (written_of emitter.old) d }
    ensures code { OnOk result (Adds (written_of emitter.old) (written_of emitter.new) (λ q. Writes mask d.register (λ j h. Ok (word_of (wrap_number d.ty (number_at a.ty a.register h))))) 1 0) }
    ensures base { OnOk result (HasBase emitter.old emitter.new 0) }
{
    emitter.put(
        mask,
        Operation::Convert {
            d: d.register,
            a: a.register,
        },
    )
}

/// An expression whose value is dropped.
pub fn emit_value(
    emitter: &mut Emitter,
    locals: &[Local],
    e: &Expr,
    guards: Guards,
) -> Result<(), AllocError>
    requires numeric { IsTrue (is_numeric locals.now (expr_of e.now)) }
    requires ready { IsReady emitter.old locals.now (guards_of guards) (1 + nodes_of (expr_of e.now)) }
    ensures code { (line token : ℕ) (v : ReturnPlace) → OnOk result (EmitsStatement (written_of emitter.old) (written_of emitter.new) locals.now locals.now v (value line token (expr_of e.now)) (guards_of guards) 0) }
    ensures grown { OnOk result (HasGrown emitter.old emitter.new (1 + nodes_of (expr_of e.now))) }
{
    let _place = emit(emitter, locals, e, guards.under())?;
    Ok(())
}

/// `place = e`
pub fn emit_plain(
    emitter: &mut Emitter,
    locals: &[Local],
    place: &Expr,
    e: &Expr,
    guards: Guards,
) -> Result<(), AllocError>
    requires variable { IsTrue (is_variable locals.now (expr_of place.now)) }
    requires numeric { IsTrue (is_numeric locals.now (expr_of e.now)) }
    requires ready { IsReady emitter.old locals.now (guards_of guards) (1 + nodes_of (expr_of place.now) + nodes_of (expr_of e.now)) }
    ensures code { (line token : ℕ) (v : ReturnPlace) → OnOk result (EmitsStatement (written_of emitter.old) (written_of emitter.new) locals.now locals.now v (assign line token None (expr_of place.now) (expr_of e.now)) (guards_of guards) 0) }
    ensures grown { OnOk result (HasGrown emitter.old emitter.new (1 + nodes_of (expr_of place.now) + nodes_of (expr_of e.now))) }
{
    let ExprKind::Name(id) = &place.kind else {
        unreachable!();
    };
    let Some(local) = local_named(locals, *id) else {
        unreachable!();
    };
    let a = emit(emitter, locals, e, guards.under())?;
    store(emitter, a, local.place, guards.running)
}

/// `place op= e`
pub fn emit_combined(
    emitter: &mut Emitter,
    locals: &[Local],
    op: BinOp,
    place: &Expr,
    e: &Expr,
    guards: Guards,
) -> Result<(), AllocError>
    requires operator { IsTrue (is_assigning (Some op)) }
    requires variable { IsTrue (is_variable locals.now (expr_of place.now)) }
    requires numeric { IsTrue (is_numeric locals.now (expr_of e.now)) }
    requires ready { IsReady emitter.old locals.now (guards_of guards) (1 + nodes_of (expr_of place.now) + nodes_of (expr_of e.now)) }
    ensures code { (line token : ℕ) (v : ReturnPlace) → OnOk result (EmitsStatement (written_of emitter.old) (written_of emitter.new) locals.now locals.now v (assign line token (Some op) (expr_of place.now) (expr_of e.now)) (guards_of guards) 0) }
    ensures grown { OnOk result (HasGrown emitter.old emitter.new (1 + nodes_of (expr_of place.now) + nodes_of (expr_of e.now))) }
{
    let ExprKind::Name(id) = &place.kind else {
        unreachable!();
    };
    let Some(local) = local_named(locals, *id) else {
        unreachable!();
    };
    let under = guards.under();
    let b = emit(emitter, locals, e, under)?;
    let a = emitter.binary(op, local.place, b, under)?;
    store(emitter, a, local.place, guards.running)
}

/// A variable without an initialiser, which is 0.
pub fn emit_declared(
    emitter: &mut Emitter,
    locals: &mut Vec<Local>,
    ty: Ty,
    id: NameId,
    guards: Guards,
) -> Result<Place, AllocError>
    requires ready { IsReady emitter.old locals.old.items (guards_of guards) 2 }
    ensures code { (line token : ℕ) (fixed : Bool) (v : ReturnPlace) → OnOk result (EmitsStatement (written_of emitter.old) (written_of emitter.new) locals.old.items locals.new.items v (local line token ty fixed id None) (guards_of guards) 0) }
    ensures names { IfOk result (λ d. locals.new.items ≡ locals.old.items ++ record { name = id; place = d } ∷ []) }
    ensures ty { IfOk result (λ d. d.ty ≡ ty) }
    ensures place { IfOk result (IsPlace (written_of emitter.new)) }
    ensures grown { OnOk result (HasGrown emitter.old emitter.new 2) }
{
    let d = emitter.fresh(ty)?;
    clear(emitter, d, guards.running)?;
    locals.push(Local { name: id, place: d })?;
    Ok(d)
}

/// A variable and its initialiser, in which it is 0 (C17 6.7.9).
pub fn emit_initialised(
    emitter: &mut Emitter,
    locals: &mut Vec<Local>,
    ty: Ty,
    id: NameId,
    e: &Expr,
    guards: Guards,
) -> Result<Place, AllocError>
    requires numeric { IsTrue (is_numeric (with_name locals.old.items id ty) (expr_of e.now)) }
    requires ready { IsReady emitter.old locals.old.items (guards_of guards) (2 + nodes_of (expr_of e.now)) }
    ensures code { (line token : ℕ) (fixed : Bool) (v : ReturnPlace) → OnOk result (EmitsStatement (written_of emitter.old) (written_of emitter.new) locals.old.items locals.new.items v (local line token ty fixed id (Some (expr_of e.now))) (guards_of guards) 0) }
    ensures names { IfOk result (λ d. locals.new.items ≡ locals.old.items ++ record { name = id; place = d } ∷ []) }
    ensures ty { IfOk result (λ d. d.ty ≡ ty) }
    ensures place { IfOk result (IsPlace (written_of emitter.new)) }
    ensures grown { OnOk result (HasGrown emitter.old emitter.new (2 + nodes_of (expr_of e.now))) }
{
    let d = emit_declared(emitter, locals, ty, id, guards)?;
    let a = emit(emitter, locals, e, guards.under())?;
    store(emitter, a, d, guards.running)?;
    Ok(d)
}
