// Jumps, in lanes: `return`, `break` and `continue` (C17 6.8.6).

ghost use Rattle.std.specs.Prelude.{◌≡◌, ◌+◌, ◌<◌, ℕ, IsTrue, None, OnOk, Ok, Some};
ghost use Rattle.vk_ast.specs.Statements.{break_loop, continue_loop, return_value};
ghost use Rattle.vk_ast.specs.Tree.{expr_of, nodes_of};
ghost use Rattle.vk_construct.specs.Adds.{Adds, LeavesOut};
ghost use Rattle.vk_construct_statements.specs.Follows.{ReturnPlace};
ghost use Rattle.vk_flat.specs.Emitters.{HasBase, IsPlace, written_of};
ghost use Rattle.vk_flat.specs.Locals.{is_numeric};
ghost use Rattle.vk_flat_statements.specs.Frames.{HasGrown, IsReady, guards_of, return_place};
ghost use Rattle.vk_flat_statements.specs.Statements.{EmitsStatement};

use crate::assigning::store;
use crate::guards::Guards;
use std::alloc::AllocError;
use vk_ast::Expr;
use vk_code::Operation;
use vk_flat::expression::emit;
use vk_flat::locals::Local;
use vk_flat::{Emitter, Place};

/// The lanes of a mask leave another.
pub fn leave(emitter: &mut Emitter, from: u16, lanes: u16) -> Result<(), AllocError>
    requires some { 0 < from }
    requires from { from < emitter.old.masks }
    requires lanes { lanes < emitter.old.masks }
    ensures code { OnOk result (Adds (written_of emitter.old) (written_of emitter.new) (LeavesOut from from lanes) 1 0) }
    ensures base { OnOk result (HasBase emitter.old emitter.new 0) }
{
    emitter.put(
        0,
        Operation::MaskBut {
            d: from,
            a: from,
            b: lanes,
        },
    )
}

/// `return;`
pub fn emit_end(emitter: &mut Emitter, locals: &[Local], guards: Guards) -> Result<(), AllocError>
    requires ready { IsReady emitter.old locals.now (guards_of guards) 1 }
    ensures code { (line token : ℕ) → OnOk result (EmitsStatement (written_of emitter.old) (written_of emitter.new) locals.now locals.now (return_place None) (return_value line token None) (guards_of guards) 0) }
    ensures grown { OnOk result (HasGrown emitter.old emitter.new 1) }
{
    leave(emitter, guards.staying, guards.running)?;
    leave(emitter, guards.running, guards.running)
}

/// `return e;`
pub fn emit_returned(
    emitter: &mut Emitter,
    locals: &[Local],
    e: &Expr,
    d: Place,
    guards: Guards,
) -> Result<(), AllocError>
    requires numeric { IsTrue (is_numeric locals.now (expr_of e.now)) }
    requires place { IsPlace (written_of emitter.old) d }
    requires ready { IsReady emitter.old locals.now (guards_of guards) (1 + nodes_of (expr_of e.now)) }
    ensures code { (line token : ℕ) → OnOk result (EmitsStatement (written_of emitter.old) (written_of emitter.new) locals.now locals.now (return_place (Some d)) (return_value line token (Some (expr_of e.now))) (guards_of guards) 0) }
    ensures grown { OnOk result (HasGrown emitter.old emitter.new (1 + nodes_of (expr_of e.now))) }
{
    let a = emit(emitter, locals, e, guards.under())?;
    store(emitter, a, d, guards.running)?;
    leave(emitter, guards.staying, guards.running)?;
    leave(emitter, guards.running, guards.running)
}

/// `break;`
pub fn emit_break(emitter: &mut Emitter, locals: &[Local], guards: Guards) -> Result<(), AllocError>
    requires ready { IsReady emitter.old locals.now (guards_of guards) 1 }
    ensures code { (line token : ℕ) (v : ReturnPlace) → OnOk result (EmitsStatement (written_of emitter.old) (written_of emitter.new) locals.now locals.now v (break_loop line token) (guards_of guards) 0) }
    ensures grown { OnOk result (HasGrown emitter.old emitter.new 1) }
{
    leave(emitter, guards.looping, guards.running)?;
    leave(emitter, guards.running, guards.running)
}

/// `continue;`
pub fn emit_continue(
    emitter: &mut Emitter,
    locals: &[Local],
    guards: Guards,
) -> Result<(), AllocError>
    requires ready { IsReady emitter.old locals.now (guards_of guards) 1 }
    ensures code { (line token : ℕ) (v : ReturnPlace) → OnOk result (EmitsStatement (written_of emitter.old) (written_of emitter.new) locals.now locals.now v (continue_loop line token) (guards_of guards) 0) }
    ensures grown { OnOk result (HasGrown emitter.old emitter.new 1) }
{
    leave(emitter, guards.running, guards.running)
}
