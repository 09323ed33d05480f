// The body of a function: the masks before it, and 0 behind it in the lanes that did not return.

ghost use Rattle.std.specs.Prelude.{◌≡◌, ◌+◌, ◌*◌, ◌≤◌, ◌<◌, length, true, IfOk, IsTrue, OnOk};
ghost use Rattle.vk_ast.specs.Statements.{all_stmt_nodes, list_stmts};
ghost use Rattle.vk_construct.specs.Adds.{Adds};
ghost use Rattle.vk_construct_statements.specs.Statements.{Meets};
ghost use Rattle.vk_flat.specs.Emitters.{HasBase, written_of};
ghost use Rattle.vk_flat.specs.Locals.{ArePlaces};
ghost use Rattle.vk_flat_statements.specs.Flat.{are_flat};
ghost use Rattle.vk_flat_bodies.specs.Bodies.{Begins, EmitsBody};

use std::alloc::AllocError;
use vk_ast::Stmt;
use vk_code::Operation;
use vk_flat::locals::Local;
use vk_flat::{Emitter, Place};
use vk_flat_nested::emit_all;
use vk_flat_statements::Guards;
use vk_flat_statements::assigning::clear;
use vk_types::Ty;

// A mask has the lanes of the call.
fn call_mask(emitter: &mut Emitter, d: u16) -> Result<(), AllocError>
    requires some { 0 < d }
    requires there { d < emitter.old.masks }
    ensures code { OnOk result (Adds (written_of emitter.old) (written_of emitter.new) (Meets d 0 0) 1 0) }
    ensures base { OnOk result (HasBase emitter.old emitter.new 0) }
{
    emitter.put(0, Operation::MaskAnd { d, a: 0, b: 0 })
}

// The masks of the lanes that run, of the loop, and of the lanes that have not returned.
fn begin(emitter: &mut Emitter) -> Result<(), AllocError>
    requires { 1 ≤ emitter.old.masks }
    ensures { OnOk result (Begins emitter.old emitter.new) }
{
    emitter.with_masks(4);
    call_mask(emitter, 1)?;
    call_mask(emitter, 2)?;
    call_mask(emitter, 3)
}

/// Appends the code of a function's body, whose names are the parameters at first, and tells the place of its result, which is 0 where
/// no `return` comes (C17 6.9.1).
pub fn emit_body(
    emitter: &mut Emitter,
    locals: &mut Vec<Local>,
    statements: &[Stmt],
    ty: Ty,
) -> Result<Place, AllocError>
    requires flat { IsTrue (are_flat true locals.old.items (list_stmts statements.now)) }
    requires places { ArePlaces (written_of emitter.old) locals.old.items }
    requires params { emitter.old.params ≤ length emitter.old.regs.items }
    requires masks { 1 ≤ emitter.old.masks }
    requires room { length emitter.old.regs.items + emitter.old.masks + 4 * (all_stmt_nodes (list_stmts statements.now)) + 4 < 65536 }
    ensures code { IfOk result (λ d. EmitsBody (written_of emitter.old) (written_of emitter.new) locals.old.items d (list_stmts statements.now)) }
    ensures ty { IfOk result (λ d. d.ty ≡ ty) }
    ensures params { OnOk result (emitter.new.params ≡ emitter.old.params) }
    ensures slots { OnOk result ((written_of emitter.new).slots ≡ (written_of emitter.old).slots) }
    ensures count { OnOk result (length emitter.new.regs.items + emitter.new.masks ≤ length emitter.old.regs.items + emitter.old.masks + 4 * (all_stmt_nodes (list_stmts statements.now)) + 4) }
{
    begin(emitter)?;
    let d = emitter.fresh(ty)?;
    let guards = Guards {
        running: 1,
        looping: 2,
        staying: 3,
        free: 4,
    };
    emit_all(emitter, locals, statements, Some(d), guards)?;
    clear(emitter, d, 3)?;
    Ok(d)
}
