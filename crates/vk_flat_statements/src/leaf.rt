// Statements without statements in them.

ghost use Rattle.std.specs.Prelude.{◌≡◌, IsTrue, OnOk, is_some};
ghost use Rattle.vk_ast.specs.Statements.{stmt_nodes, stmt_of};
ghost use Rattle.vk_flat_statements.specs.Flat.{is_flat, is_leaf};
ghost use Rattle.vk_flat_statements.specs.Frames.{HasPlace, IsReady, guards_of};
ghost use Rattle.vk_flat_statements.specs.Statements.{Compiles};

use crate::assigning::{emit_combined, emit_declared, emit_initialised, emit_plain, emit_value};
use crate::guards::Guards;
use crate::leaving::{emit_break, emit_continue, emit_end, emit_returned};
use std::alloc::AllocError;
use vk_ast::{Stmt, StmtKind};
use vk_flat::locals::Local;
use vk_flat::{Emitter, Place};

/// Appends the code of a statement on integer variables that has no statement in it. What it declares is among the locals behind it.
pub fn emit_leaf(
    emitter: &mut Emitter,
    locals: &mut Vec<Local>,
    s: &Stmt,
    returned: Option<Place>,
    guards: Guards,
) -> Result<(), AllocError>
    requires leaf { IsTrue (is_leaf (stmt_of s.now)) }
    requires flat { IsTrue (is_flat (is_some returned) locals.old.items (stmt_of s.now)) }
    requires place { HasPlace emitter.old returned }
    requires ready { IsReady emitter.old locals.old.items (guards_of guards) (stmt_nodes (stmt_of s.now)) }
    ensures { OnOk result (Compiles emitter.old emitter.new locals.old.items locals.new.items returned (stmt_of s.now) (guards_of guards)) }
{
    match &s.kind {
        StmtKind::Empty => Ok(()),
        StmtKind::Local(ty, _, id, init) => match init {
            Some(e) => {
                let _place = emit_initialised(emitter, locals, *ty, *id, e, guards)?;
                Ok(())
            }
            None => {
                let _place = emit_declared(emitter, locals, *ty, *id, guards)?;
                Ok(())
            }
        },
        StmtKind::Assign(op, place, e) => match op {
            Some(op) => emit_combined(emitter, locals, *op, place, e, guards),
            None => emit_plain(emitter, locals, place, e, guards),
        },
        StmtKind::Value(e) => emit_value(emitter, locals, e, guards),
        StmtKind::Break => emit_break(emitter, locals, guards),
        StmtKind::Continue => emit_continue(emitter, locals, guards),
        StmtKind::Return(value) => match value {
            Some(e) => match returned {
                Some(d) => emit_returned(emitter, locals, e, d, guards),
                None => unreachable!(),
            },
            None => emit_end(emitter, locals, guards),
        },
        _ => unreachable!(),
    }
}
