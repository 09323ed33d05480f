// Assignments to elements of memory (C17 6.5.16).

ghost use Rattle.std.specs.Prelude.{◌+◌, ◌*◌, IsTrue, OnOk, is_some};
ghost use Rattle.vk_ast.specs.Tree.{expr_of, nodes_of};
ghost use Rattle.vk_flat.specs.Emitters.{written_of};
ghost use Rattle.vk_flat_elements.specs.Assigned.{EmitsAssigned};
ghost use Rattle.vk_flat_trees.specs.Emits.{CanEmit, HasGrown};
ghost use Rattle.vk_flat_trees.specs.Names.{is_numeric, placing};

use std::alloc::AllocError;
use vk_ast::Expr;
use vk_flat::{Emitter, Under};
use vk_flat_pointers::Named;
use vk_flat_pointers::moving::store;
use vk_flat_trees::{emit, emit_place};

/// Appends the code of `place = e`: the place's pointer, the number of `e` as one of the element's type, and the store.
pub fn emit_assigned(
    emitter: &mut Emitter,
    names: &[Named],
    place: &Expr,
    e: &Expr,
    under: Under,
) -> Result<(), AllocError>
    requires placing { IsTrue (is_some (placing names.now (expr_of place.now))) }
    requires numeric { IsTrue (is_numeric names.now (expr_of e.now)) }
    requires ready { CanEmit emitter.old names.now under (4 * (nodes_of (expr_of place.now) + nodes_of (expr_of e.now)) + 1) }
    ensures code { OnOk result (EmitsAssigned (written_of emitter.old) (written_of emitter.new) names.now (expr_of place.now) (expr_of e.now) under) }
    ensures grown { OnOk result (HasGrown emitter.old emitter.new (4 * (nodes_of (expr_of place.now) + nodes_of (expr_of e.now)) + 1)) }
{
    let p = emit_place(emitter, names, place, under)?;
    let a = emit(emitter, names, e, under)?;
    let b = emitter.convert(a, p.to, under)?;
    store(emitter, p, b, under)
}
