// Assignments to elements (C17 6.5.16).

ghost use Rattle.std.specs.Prelude.{IfOk, List};
ghost use Rattle.vk_ast.specs.Tree.{expr_of};
ghost use Rattle.vk_io.specs.Sink.{SinkState};
ghost use Rattle.vk_types.specs.Numbers.{wrap_number};
ghost use Rattle.vk_meaning.specs.World.{Array};
ghost use Rattle.vk_meaning.specs.Data.{given, number_in, stored};
ghost use Rattle.vk_meaning.specs.Expressions.{address_of, value_of};
ghost use Rattle.vk_meaning.specs.Statements.{assigned, assigned_by, combined};
ghost use Rattle.vk_reading.specs.Cells.{HaveWords};
ghost use Rattle.vk_reading.specs.Held.{IsHeld, datum_of};
ghost use Rattle.vk_rules_names.specs.Seen.{scope_of};
ghost use Rattle.vk_reading_steps.specs.Runs.{Does, run_of};
ghost use Rattle.vk_reading_steps.specs.Settings.{AreHeld, context_in, variables_in};

use vk_ast::{BinOp, Expr};
use vk_io::Sink;
use vk_kinds::CType;
use vk_reading::held::{as_type, number_in};
use vk_reading::{Cells, Halt, Held};
use vk_reading_steps::calls::Calls;
use vk_reading_steps::operands::{binary_of, loaded_of};
use vk_reading_steps::setting::Place;
use vk_reading_trees::{address_of, evaluate};
use vk_types::{Stop, Ty};

// The number is stored in the element that the pointer points to, as one of the type; nothing changes where it stops.
fn store_at(cells: &mut Cells, ty: Ty, p: Held, n: Held) -> Result<Held, Halt>
    requires words { HaveWords cells.old.rows.items }
    requires number { IsHeld n }
    ensures does { (arrays : List Array) (out : SinkState) → Does arrays (run_of cells.old.rows.items out)
        (stored arrays (datum_of p) (wrap_number ty (number_in (datum_of n)))) (run_of cells.new.rows.items out) result }
    ensures words { HaveWords cells.new.rows.items }
    ensures held { IfOk result IsHeld }
{
    let Held::Pointer { to, array, offset } = p else {
        return Err(Halt::Halted(Stop::Bounds));
    };
    let number = number_in(as_type(n, CType::Int(ty)));
    match cells.store(vk_reading::Place { to, array, offset }, number) {
        Ok(()) => Ok(Held::Nothing),
        Err(stop) => Err(Halt::Halted(stop)),
    }
}

/// `target = e`, where the target has elements of the type `s`.
pub fn assign<O: Sink, C: Calls<O>>(
    calls: &C,
    cells: &mut Cells,
    out: &mut O,
    place: &Place,
    s: Ty,
    target: &Expr,
    e: &Expr,
) -> Result<Held, Halt>
    requires words { HaveWords cells.old.rows.items }
    requires held { AreHeld place.now.values.now }
    ensures words { HaveWords cells.new.rows.items }
    ensures held { IfOk result IsHeld }
    ensures does { let context = context_in (C.arrays calls.now) (C.call calls.now) place.now.setting in
        let scope = scope_of place.now.scopes in let values = variables_in place.now.values.now in
        Does (C.arrays calls.now) (run_of cells.old.rows.items (O.state out.old))
        (assigned context s (address_of context scope values (expr_of target.now)) (value_of context scope values (expr_of e.now)))
        (run_of cells.new.rows.items (O.state out.new)) result }
{
    let to = address_of(calls, cells, out, place, target)?;
    let number = evaluate(calls, cells, out, place, e)?;
    store_at(cells, s, to, number)
}

/// The operator on the old number and `e`, which have the types `s` and `t`.
pub fn combine<O: Sink, C: Calls<O>>(
    calls: &C,
    cells: &mut Cells,
    out: &mut O,
    place: &Place,
    op: BinOp,
    s: Ty,
    t: Ty,
    old: Held,
    e: &Expr,
) -> Result<Held, Halt>
    requires words { HaveWords cells.old.rows.items }
    requires held { AreHeld place.now.values.now }
    requires number { IsHeld old }
    ensures words { HaveWords cells.new.rows.items }
    ensures held { IfOk result IsHeld }
    ensures does { Does (C.arrays calls.now) (run_of cells.old.rows.items (O.state out.old))
        (combined op s t (given (datum_of old))
        (value_of (context_in (C.arrays calls.now) (C.call calls.now) place.now.setting) (scope_of place.now.scopes) (variables_in place.now.values.now) (expr_of e.now)))
        (run_of cells.new.rows.items (O.state out.new)) result }
{
    let n = evaluate(calls, cells, out, place, e);
    binary_of(op, s, t, old, n)
}

/// `target op= e`, where the target has elements of the type `s`, and `e` the type `t`.
pub fn assign_by<O: Sink, C: Calls<O>>(
    calls: &C,
    cells: &mut Cells,
    out: &mut O,
    place: &Place,
    op: BinOp,
    s: Ty,
    t: Ty,
    target: &Expr,
    e: &Expr,
) -> Result<Held, Halt>
    requires words { HaveWords cells.old.rows.items }
    requires held { AreHeld place.now.values.now }
    ensures words { HaveWords cells.new.rows.items }
    ensures held { IfOk result IsHeld }
    ensures does { let context = context_in (C.arrays calls.now) (C.call calls.now) place.now.setting in
        let scope = scope_of place.now.scopes in let values = variables_in place.now.values.now in
        Does (C.arrays calls.now) (run_of cells.old.rows.items (O.state out.old))
        (assigned_by context op s t (address_of context scope values (expr_of target.now)) (value_of context scope values (expr_of e.now)))
        (run_of cells.new.rows.items (O.state out.new)) result }
{
    let p = address_of(calls, cells, out, place, target)?;
    let old = loaded_of(cells, s, Ok(p))?;
    let n = combine(calls, cells, out, place, op, s, t, old, e)?;
    store_at(cells, s, p, n)
}
