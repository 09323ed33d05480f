// Expressions are evaluated, operands from left to right (C17 6.5).

ghost use Rattle.std.specs.Prelude.{◌≡◌, IfOk, List, OnOk, drop, length};
ghost use Rattle.vk_ast.specs.Tree.{expr_of, exprs_of};
ghost use Rattle.vk_meaning.specs.Expressions.{address_of, value_of, with_arguments};
ghost use Rattle.vk_reading.specs.Cells.{HaveWords};
ghost use Rattle.vk_reading.specs.Held.{IsHeld};
ghost use Rattle.vk_rules_book.specs.Typings.{wanted_types};
ghost use Rattle.vk_rules_names.specs.Seen.{meaning_seen, scope_of};
ghost use Rattle.vk_reading_steps.specs.Runs.{Does, DoesArguments, run_of};
ghost use Rattle.vk_reading_steps.specs.Settings.{AreHeld, context_in, data_of, variables_in};

use crate::arguments::add_argument;
use vk_ast::{Expr, ExprKind};
use vk_io::Sink;
use vk_reading::held::{is_on, number_in};
use vk_reading::{Cells, Halt, Held};
use vk_reading_steps::calls::Calls;
use vk_reading_steps::names::{address_of_name, value_of_name};
use vk_reading_steps::operands::{
    binary_of, converted_to, decided, element_of, literal, loaded_of, moved_of, unary_of,
};
use vk_reading_steps::setting::Place;
use vk_reading_steps::typing::{integer_type, moves_left, moves_right, pointed_type, typing};
use vk_rules_names::Known;
use vk_types::common;

/// Evaluates an expression.
#[cycle(evaluating)]
pub fn evaluate<O: Sink, C: Calls<O>>(
    calls: &C,
    cells: &mut Cells,
    out: &mut O,
    place: &Place,
    e: &Expr,
) -> Result<Held, Halt>
    requires words { HaveWords cells.old.rows.items }
    requires held { AreHeld place.now.values.now }
    ensures words { HaveWords cells.new.rows.items }
    ensures held { IfOk result IsHeld }
    ensures does { Does (C.arrays calls.now) (run_of cells.old.rows.items (O.state out.old))
        (value_of (context_in (C.arrays calls.now) (C.call calls.now) place.now.setting) (scope_of place.now.scopes) (variables_in place.now.values.now) (expr_of e.now))
        (run_of cells.new.rows.items (O.state out.new)) result }
{
    match &e.kind {
        ExprKind::Int(ty, n) => Ok(literal(*ty, *n)),
        ExprKind::Name(id) => value_of_name(cells, place, *id),
        ExprKind::Index(base, subscript) => {
            let to = pointed_type(typing(&place.scopes, base));
            let p = evaluate(calls, cells, out, place, base)?;
            let n = evaluate(calls, cells, out, place, subscript);
            loaded_of(cells, to, element_of(p, n))
        }
        ExprKind::Deref(operand) => {
            let to = pointed_type(typing(&place.scopes, operand));
            let p = evaluate(calls, cells, out, place, operand);
            loaded_of(cells, to, p)
        }
        ExprKind::Addr(operand) => address_of(calls, cells, out, place, operand),
        ExprKind::Unary(op, operand) => {
            let s = integer_type(typing(&place.scopes, operand));
            let x = evaluate(calls, cells, out, place, operand);
            unary_of(*op, s, x)
        }
        ExprKind::Binary(op, left, right) => {
            let s = typing(&place.scopes, left);
            let t = typing(&place.scopes, right);
            if moves_left(*op, s) {
                let p = evaluate(calls, cells, out, place, left)?;
                let n = evaluate(calls, cells, out, place, right);
                return moved_of(*op, p, n);
            }
            if moves_right(*op, s, t) {
                let p = evaluate(calls, cells, out, place, right)?;
                let n = evaluate(calls, cells, out, place, left);
                return moved_of(*op, p, n);
            }
            let x = evaluate(calls, cells, out, place, left)?;
            if let Some(value) = decided(*op, x) {
                return Ok(value);
            }
            let y = evaluate(calls, cells, out, place, right);
            binary_of(*op, integer_type(s), integer_type(t), x, y)
        }
        ExprKind::Cond(condition, first, second) => {
            let s = integer_type(typing(&place.scopes, first));
            let t = integer_type(typing(&place.scopes, second));
            let test = evaluate(calls, cells, out, place, condition)?;
            if is_on(number_in(test)) {
                let x = evaluate(calls, cells, out, place, first);
                return converted_to(common(s, t), x);
            }
            let x = evaluate(calls, cells, out, place, second);
            converted_to(common(s, t), x)
        }
        ExprKind::Cast(ty, operand) => {
            let x = evaluate(calls, cells, out, place, operand);
            converted_to(*ty, x)
        }
        ExprKind::Call(id, arguments) => {
            let known = place.scopes.meaning(*id);
            let mut values = Vec::new(place.alloc);
            evaluate_arguments(calls, cells, out, place, &known, arguments, &mut values)?;
            calls.call(cells, out, *id, &values)
        }
    }
}

/// A pointer to the object that an lvalue designates (C17 6.5.3.2).
#[cycle(evaluating)]
pub fn address_of<O: Sink, C: Calls<O>>(
    calls: &C,
    cells: &mut Cells,
    out: &mut O,
    place: &Place,
    e: &Expr,
) -> Result<Held, Halt>
    requires words { HaveWords cells.old.rows.items }
    requires held { AreHeld place.now.values.now }
    ensures words { HaveWords cells.new.rows.items }
    ensures held { IfOk result IsHeld }
    ensures does { Does (C.arrays calls.now) (run_of cells.old.rows.items (O.state out.old))
        (address_of (context_in (C.arrays calls.now) (C.call calls.now) place.now.setting) (scope_of place.now.scopes) (variables_in place.now.values.now) (expr_of e.now))
        (run_of cells.new.rows.items (O.state out.new)) result }
{
    match &e.kind {
        ExprKind::Name(id) => Ok(address_of_name(place, *id)),
        ExprKind::Index(base, subscript) => {
            let p = evaluate(calls, cells, out, place, base)?;
            let n = evaluate(calls, cells, out, place, subscript);
            element_of(p, n)
        }
        ExprKind::Deref(operand) => evaluate(calls, cells, out, place, operand),
        _ => Ok(Held::Nothing),
    }
}

/// Evaluates the arguments of a call, each converted to its parameter's type, behind those that were evaluated before (C17 6.5.2.2).
#[cycle(evaluating)]
pub fn evaluate_arguments<O: Sink, C: Calls<O>>(
    calls: &C,
    cells: &mut Cells,
    out: &mut O,
    place: &Place,
    known: &Known,
    arguments: &[Expr],
    values: &mut Vec<Held>,
) -> Result<(), Halt>
    requires words { HaveWords cells.old.rows.items }
    requires held { AreHeld place.now.values.now }
    requires before { AreHeld values.old.items }
    ensures words { HaveWords cells.new.rows.items }
    ensures held { OnOk result (AreHeld values.new.items) }
    ensures does { DoesArguments (C.arrays calls.now) (run_of cells.old.rows.items (O.state out.old))
        (with_arguments (context_in (C.arrays calls.now) (C.call calls.now) place.now.setting) (scope_of place.now.scopes) (variables_in place.now.values.now)
        (drop (length values.old.items) (wanted_types (meaning_seen known.now))) (exprs_of arguments.now) (data_of values.old.items))
        (run_of cells.new.rows.items (O.state out.new)) (data_of values.new.items) result }
{
    for e in arguments {
        let value = evaluate(calls, cells, out, place, e)?;
        add_argument(known, values, value)?;
    }
    Ok(())
}
