// The two masks of an `if`, and the running one behind it.

ghost use Rattle.std.specs.Prelude.{◌≡◌, ◌+◌, ◌≤◌, ◌<◌, length, IsTrue, OnOk};
ghost use Rattle.vk_ast.specs.Tree.{expr_of, nodes_of};
ghost use Rattle.vk_construct.specs.Adds.{Adds, Splits};
ghost use Rattle.vk_construct_statements.specs.Statements.{Unites};
ghost use Rattle.vk_flat.specs.Emitters.{HasBase, IsPlace, written_of};
ghost use Rattle.vk_flat.specs.Locals.{is_numeric};
ghost use Rattle.vk_flat_statements.specs.Frames.{IsReady, guards_of};
ghost use Rattle.vk_flat_statements.specs.Statements.{Divides};

use crate::guards::Guards;
use std::alloc::AllocError;
use vk_ast::Expr;
use vk_code::Operation;
use vk_flat::expression::emit;
use vk_flat::locals::Local;
use vk_flat::{Emitter, Place};

/// The lanes that run are split by the number in `a`, into the first free mask and the one behind it.
pub fn part(emitter: &mut Emitter, a: Place, guards: Guards) -> Result<(), AllocError>
    requires operand { IsPlace (written_of emitter.old) a }
    requires running { guards.running < guards.free }
    requires masks { guards.free ≤ emitter.old.masks }
    requires room { guards.free + 2 < 65536 }
    ensures code { OnOk result (Adds (written_of emitter.old) (written_of emitter.new) (Splits guards.running guards.free a.register) 2 0) }
    ensures params { OnOk result (emitter.new.params ≡ emitter.old.params) }
    ensures slots { OnOk result ((written_of emitter.new).slots ≡ (written_of emitter.old).slots) }
    ensures registers { OnOk result (length emitter.new.regs.items ≡ length emitter.old.regs.items) }
    ensures free { OnOk result (guards.free + 2 ≤ emitter.new.masks) }
    ensures masks { OnOk result (emitter.old.masks ≤ emitter.new.masks) }
    ensures count { OnOk result (emitter.new.masks ≤ emitter.old.masks + 2) }
{
    emitter.with_masks(guards.free + 2);
    emitter.split(a, guards.under())
}

/// The lanes of the two branches run again.
pub fn unite(emitter: &mut Emitter, guards: Guards) -> Result<(), AllocError>
    requires some { 0 < guards.running }
    requires running { guards.running < guards.free }
    requires masks { guards.free + 2 ≤ emitter.old.masks }
    requires room { guards.free + 2 < 65536 }
    ensures code { OnOk result (Adds (written_of emitter.old) (written_of emitter.new) (Unites guards.running guards.free (guards.free + 1)) 1 0) }
    ensures base { OnOk result (HasBase emitter.old emitter.new 0) }
{
    emitter.put(
        0,
        Operation::MaskOr {
            d: guards.running,
            a: guards.free,
            b: guards.free + 1,
        },
    )
}

/// The lanes that run are split by a condition.
pub fn divide(
    emitter: &mut Emitter,
    locals: &[Local],
    test: &Expr,
    guards: Guards,
) -> Result<(), AllocError>
    requires numeric { IsTrue (is_numeric locals.now (expr_of test.now)) }
    requires ready { IsReady emitter.old locals.now (guards_of guards) (1 + nodes_of (expr_of test.now)) }
    ensures { OnOk result (Divides emitter.old emitter.new locals.now (expr_of test.now) (guards_of guards)) }
{
    let a = emit(emitter, locals, test, guards.under())?;
    part(emitter, a, guards)
}
