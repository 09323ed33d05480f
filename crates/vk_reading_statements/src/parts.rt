// What statements do that have no statements in them, and the conditions of those that have.

ghost use Rattle.std.specs.Prelude.{◌≡◌, ◌++◌, ◌∷◌, [], ℕ, IfOk, OnOk, Some, None, false};
ghost use Rattle.std.specs.Option.{option_map};
ghost use Rattle.vk_kinds.specs.declared.heads.CType.TheVariants.{Int};
ghost use Rattle.vk_types.specs.declared.types.Ty.{Ty};
ghost use Rattle.vk_ast.specs.Statements.{StmtTree, stmt_of};
ghost use Rattle.vk_ast.specs.Tree.{expr_of};
ghost use Rattle.vk_meaning.specs.Data.{as_type, given};
ghost use Rattle.vk_meaning.specs.Expressions.{integer_type, value_of, with_datum};
ghost use Rattle.vk_meaning.specs.Points.{Point};
ghost use Rattle.vk_meaning.specs.Statements.{assignment_to, combined, condition_of, declared, evaluate, initialised, return_of, told_by, variable_of};
ghost use Rattle.vk_reading.specs.Cells.{HaveWords};
ghost use Rattle.vk_reading.specs.Held.{IsHeld, datum_of};
ghost use Rattle.vk_reading.specs.Variables.{found_in};
ghost use Rattle.vk_rules_book.specs.Typings.{typing_of};
ghost use Rattle.vk_rules_names.specs.Seen.{scope_of};
ghost use Rattle.vk_reading_steps.specs.Runs.{Does, run_of};
ghost use Rattle.vk_reading_steps.specs.Settings.{AreHeld, variables_in};
ghost use Rattle.vk_reading_statements.specs.declared.body.Body.{Body};
ghost use Rattle.vk_reading_statements.specs.Acts.{Acts, Decides};
ghost use Rattle.vk_reading_statements.specs.Flows.{IsSound, behind_it};
ghost use Rattle.vk_reading_statements.specs.Loops.{test_in, upper_bound};
ghost use Rattle.vk_reading_statements.specs.Assigned.{assigned_value};
ghost use Rattle.vk_reading_statements.specs.Places.{context_at, data_in, point_in, scope_in};

use crate::assigning::{assign, assign_by, combine};
use crate::body::{Body, Locals};
use crate::flow::Flow;
use vk_ast::{BinOp, Expr, ExprKind, Stmt, StmtKind};
use vk_io::Sink;
use vk_meaning::RunFail;
use vk_memory::Memory;
use vk_reading::held::{as_type, is_on, number_in};
use vk_reading::variables::{Variable, variable_among};
use vk_reading::{Cells, Halt, Held};
use vk_reading_steps::calls::Calls;
use vk_reading_steps::setting::Place;
use vk_reading_steps::typing::{integer_type, typing};
use vk_rules_book::Binding;

// The place in the body where these variables are visible.
fn place_in<'a>(body: &Body<'a>, locals: &'a Locals, outer: usize) -> Place<'a>
    ensures setting { result.setting ≡ body.now.setting }
    ensures scope { scope_of result.scopes ≡ scope_in body.now locals.now outer }
    ensures values { result.values.now ≡ locals.now.values.items }
{
    Place {
        alloc: body.alloc,
        setting: body.setting,
        scopes: body.file.with(&locals.bindings, outer),
        values: &locals.values,
    }
}

// Evaluates an expression.
fn evaluate_here<O: Sink, C: Calls<O>>(
    calls: &C,
    cells: &mut Cells,
    out: &mut O,
    body: &Body,
    locals: &Locals,
    outer: usize,
    e: &Expr,
) -> Result<Held, Halt>
    requires words { HaveWords cells.old.rows.items }
    requires held { AreHeld locals.now.values.items }
    ensures words { HaveWords cells.new.rows.items }
    ensures held { IfOk result IsHeld }
    ensures does { Does (C.arrays calls.now) (run_of cells.old.rows.items (O.state out.old))
        (value_of (context_at (C.arrays calls.now) (C.call calls.now) body.now) (scope_in body.now locals.now outer) (data_in locals.now) (expr_of e.now))
        (run_of cells.new.rows.items (O.state out.new)) result }
{
    let place = place_in(body, locals, outer);
    vk_reading_trees::evaluate(calls, cells, out, &place, e)
}

/// Whether a condition holds.
pub fn holds<O: Sink, C: Calls<O>>(
    calls: &C,
    cells: &mut Cells,
    out: &mut O,
    body: &Body,
    locals: &Locals,
    outer: usize,
    e: &Expr,
) -> Result<bool, Halt>
    requires words { HaveWords cells.old.rows.items }
    requires held { AreHeld locals.now.values.items }
    ensures words { HaveWords cells.new.rows.items }
    ensures decides { Decides (C.arrays calls.now) (run_of cells.old.rows.items (O.state out.old)) locals.now.values.items
        (λ vs. value_of (context_at (C.arrays calls.now) (C.call calls.now) body.now) (scope_in body.now locals.now outer) vs (expr_of e.now))
        (run_of cells.new.rows.items (O.state out.new)) result }
{
    let held = evaluate_here(calls, cells, out, body, locals, outer, e)?;
    Ok(is_on(number_in(held)))
}

/// Whether the condition of a loop holds; a missing one does.
pub fn test<O: Sink, C: Calls<O>>(
    calls: &C,
    cells: &mut Cells,
    out: &mut O,
    body: &Body,
    locals: &Locals,
    outer: usize,
    s: &Stmt,
) -> Result<bool, Halt>
    requires words { HaveWords cells.old.rows.items }
    requires held { AreHeld locals.now.values.items }
    ensures words { HaveWords cells.new.rows.items }
    ensures decides { Decides (C.arrays calls.now) (run_of cells.old.rows.items (O.state out.old)) locals.now.values.items
        (condition_of (context_at (C.arrays calls.now) (C.call calls.now) body.now) (scope_in body.now locals.now outer) (test_in (stmt_of s.now)))
        (run_of cells.new.rows.items (O.state out.new)) result }
{
    match &s.kind {
        StmtKind::While(e, _) => holds(calls, cells, out, body, locals, outer, e),
        StmtKind::Do(_, e) => holds(calls, cells, out, body, locals, outer, e),
        StmtKind::For(_, e, _, _) => match e {
            Some(e) => holds(calls, cells, out, body, locals, outer, e),
            None => Ok(true),
        },
        _ => Ok(true),
    }
}

/// An expression whose value is dropped (C17 6.8.3).
pub fn run_value<O: Sink, C: Calls<O>>(
    calls: &C,
    cells: &mut Cells,
    out: &mut O,
    body: &Body,
    locals: &Locals,
    outer: usize,
    e: &Expr,
) -> Result<Flow, Halt>
    requires words { HaveWords cells.old.rows.items }
    requires held { AreHeld locals.now.values.items }
    ensures words { HaveWords cells.new.rows.items }
    ensures sound { IfOk result IsSound }
    ensures acts { Acts (C.arrays calls.now) (run_of cells.old.rows.items (O.state out.old)) locals.now.values.items
        (evaluate (λ vs. value_of (context_at (C.arrays calls.now) (C.call calls.now) body.now) (scope_in body.now locals.now outer) vs (expr_of e.now)))
        (run_of cells.new.rows.items (O.state out.new)) locals.now.values.items result }
{
    evaluate_here(calls, cells, out, body, locals, outer, e)?;
    Ok(Flow::Fell)
}

/// `return` (C17 6.8.6.4).
pub fn run_return<O: Sink, C: Calls<O>>(
    calls: &C,
    cells: &mut Cells,
    out: &mut O,
    body: &Body,
    locals: &Locals,
    outer: usize,
    e: &Option<Expr>,
) -> Result<Flow, Halt>
    requires words { HaveWords cells.old.rows.items }
    requires held { AreHeld locals.now.values.items }
    ensures words { HaveWords cells.new.rows.items }
    ensures sound { IfOk result IsSound }
    ensures acts { Acts (C.arrays calls.now) (run_of cells.old.rows.items (O.state out.old)) locals.now.values.items
        (return_of (context_at (C.arrays calls.now) (C.call calls.now) body.now) (scope_in body.now locals.now outer) (option_map expr_of e.now))
        (run_of cells.new.rows.items (O.state out.new)) locals.now.values.items result }
{
    match e {
        Some(e) => {
            let held = evaluate_here(calls, cells, out, body, locals, outer, e)?;
            Ok(Flow::Returned(as_type(held, body.setting.result)))
        }
        None => Ok(Flow::Returned(Held::Nothing)),
    }
}

// The value becomes what the variable has, as one of its type.
fn assign_variable(locals: &mut Locals, variable: Variable, held: Held) -> Result<(), Memory>
    requires before { AreHeld locals.old.values.items }
    requires held { IsHeld held }
    ensures bindings { OnOk result (locals.new.bindings.items ≡ locals.old.bindings.items) }
    ensures data { OnOk result (data_in locals.new
        ≡ with_datum (data_in locals.old) variable.number (as_type variable.ctype (datum_of held))) }
    ensures held { OnOk result (AreHeld locals.new.values.items) }
{
    locals.set(variable.number, as_type(held, variable.ctype))
}

// The initialiser of a variable that was declared.
fn initialise<O: Sink, C: Calls<O>>(
    calls: &C,
    cells: &mut Cells,
    out: &mut O,
    body: &Body,
    locals: &mut Locals,
    outer: usize,
    variable: Variable,
    init: &Option<Expr>,
) -> Result<Flow, Halt>
    requires words { HaveWords cells.old.rows.items }
    requires held { AreHeld locals.old.values.items }
    ensures words { HaveWords cells.new.rows.items }
    ensures held { OnOk result (AreHeld locals.new.values.items) }
    ensures flow { IfOk result (λ flow. flow ≡ Flow.Fell) }
    ensures bindings { OnOk result (locals.new.bindings.items ≡ locals.old.bindings.items) }
    ensures acts { Acts (C.arrays calls.now) (run_of cells.old.rows.items (O.state out.old)) locals.old.values.items
        (initialised (context_at (C.arrays calls.now) (C.call calls.now) body.now) (scope_in body.now locals.old outer) (record { number = variable.number; ctype = variable.ctype })
        (option_map expr_of init.now))
        (run_of cells.new.rows.items (O.state out.new)) locals.new.values.items result }
{
    match init {
        Some(e) => {
            let held = evaluate_here(calls, cells, out, body, locals, outer, e)?;
            match assign_variable(locals, variable, held) {
                Ok(()) => Ok(Flow::Fell),
                Err(Memory) => Err(Halt::Failed(RunFail::Memory)),
            }
        }
        None => Ok(Flow::Fell),
    }
}

/// A declaration (C17 6.7).
pub fn run_local<O: Sink, C: Calls<O>>(
    calls: &C,
    cells: &mut Cells,
    out: &mut O,
    body: &Body,
    locals: &mut Locals,
    outer: usize,
    binding: Binding,
    init: &Option<Expr>,
) -> Result<Flow, Halt>
    requires words { HaveWords cells.old.rows.items }
    requires held { AreHeld locals.old.values.items }
    ensures words { HaveWords cells.new.rows.items }
    ensures held { OnOk result (AreHeld locals.new.values.items) }
    ensures flow { IfOk result (λ flow. flow ≡ Flow.Fell) }
    ensures bindings { OnOk result (locals.new.bindings.items ≡ locals.old.bindings.items ++ binding ∷ []) }
    ensures acts { (t : Ty) → binding.ctype ≡ Int t → Acts (C.arrays calls.now) (run_of cells.old.rows.items (O.state out.old)) locals.old.values.items
        (declared (context_at (C.arrays calls.now) (C.call calls.now) body.now) (scope_in body.now locals.old outer) t binding.fixed binding.name (option_map expr_of init.now))
        (run_of cells.new.rows.items (O.state out.new)) locals.new.values.items result }
{
    let variable = Variable {
        number: locals.bindings.len(),
        ctype: binding.ctype,
    };
    match locals.declare(binding) {
        Ok(()) => initialise(calls, cells, out, body, locals, outer, variable, init),
        Err(Memory) => Err(Halt::Failed(RunFail::Memory)),
    }
}

// What the variable with this number has.
fn value_at(values: &[Held], number: usize) -> Held
    requires { AreHeld values.now }
    ensures value { datum_of result ≡ variables_in values.now number }
    ensures held { IsHeld result }
{
    match values.get(number) {
        Some(held) => *held,
        None => Held::Nothing,
    }
}

// The variable that a place is, where it is one.
fn variable_of(locals: &Locals, target: &Expr) -> Option<Variable>
    ensures { (body : Body) (outer : ℕ) → found_in result ≡ variable_of (scope_in body locals.now outer) (expr_of target.now) }
{
    match &target.kind {
        ExprKind::Name(id) => variable_among(0, &locals.bindings, *id),
        _ => None,
    }
}

// The operator on what the variable has and `e`.
fn combine_variable<O: Sink, C: Calls<O>>(
    calls: &C,
    cells: &mut Cells,
    out: &mut O,
    body: &Body,
    locals: &Locals,
    outer: usize,
    number: usize,
    op: BinOp,
    target: &Expr,
    e: &Expr,
) -> Result<Held, Halt>
    requires words { HaveWords cells.old.rows.items }
    requires held { AreHeld locals.now.values.items }
    ensures words { HaveWords cells.new.rows.items }
    ensures held { IfOk result IsHeld }
    ensures does { let scope = scope_in body.now locals.now outer in
        Does (C.arrays calls.now) (run_of cells.old.rows.items (O.state out.old))
        (combined op (integer_type (typing_of scope (expr_of target.now))) (integer_type (typing_of scope (expr_of e.now))) (given (data_in locals.now number))
        (value_of (context_at (C.arrays calls.now) (C.call calls.now) body.now) scope (data_in locals.now) (expr_of e.now)))
        (run_of cells.new.rows.items (O.state out.new)) result }
{
    let place = place_in(body, locals, outer);
    let s = integer_type(typing(&place.scopes, target));
    let t = integer_type(typing(&place.scopes, e));
    let old = value_at(&locals.values, number);
    combine(calls, cells, out, &place, op, s, t, old, e)
}

// What is stored in the variable: `e`, or the operator on the old value and `e`.
fn assigned_value<O: Sink, C: Calls<O>>(
    calls: &C,
    cells: &mut Cells,
    out: &mut O,
    body: &Body,
    locals: &Locals,
    outer: usize,
    number: usize,
    op: Option<BinOp>,
    target: &Expr,
    e: &Expr,
) -> Result<Held, Halt>
    requires words { HaveWords cells.old.rows.items }
    requires held { AreHeld locals.now.values.items }
    ensures words { HaveWords cells.new.rows.items }
    ensures held { IfOk result IsHeld }
    ensures does { Does (C.arrays calls.now) (run_of cells.old.rows.items (O.state out.old))
        (assigned_value (context_at (C.arrays calls.now) (C.call calls.now) body.now) (scope_in body.now locals.now outer) number op (expr_of target.now) (expr_of e.now)
        (data_in locals.now))
        (run_of cells.new.rows.items (O.state out.new)) result }
{
    match op {
        None => evaluate_here(calls, cells, out, body, locals, outer, e),
        Some(op) => combine_variable(
            calls, cells, out, body, locals, outer, number, op, target, e,
        ),
    }
}

// An assignment to a variable.
fn assign_to_variable<O: Sink, C: Calls<O>>(
    calls: &C,
    cells: &mut Cells,
    out: &mut O,
    body: &Body,
    locals: &mut Locals,
    outer: usize,
    variable: Variable,
    op: Option<BinOp>,
    target: &Expr,
    e: &Expr,
) -> Result<Flow, Halt>
    requires words { HaveWords cells.old.rows.items }
    requires held { AreHeld locals.old.values.items }
    ensures words { HaveWords cells.new.rows.items }
    ensures held { OnOk result (AreHeld locals.new.values.items) }
    ensures sound { IfOk result IsSound }
    ensures bindings { OnOk result (locals.new.bindings.items ≡ locals.old.bindings.items) }
    ensures acts { Acts (C.arrays calls.now) (run_of cells.old.rows.items (O.state out.old)) locals.old.values.items
        (assignment_to (context_at (C.arrays calls.now) (C.call calls.now) body.now) (scope_in body.now locals.old outer) (found_in (Some variable)) op
        (expr_of target.now) (expr_of e.now))
        (run_of cells.new.rows.items (O.state out.new)) locals.new.values.items result }
{
    let held = assigned_value(
        calls,
        cells,
        out,
        body,
        locals,
        outer,
        variable.number,
        op,
        target,
        e,
    )?;
    match assign_variable(locals, variable, held) {
        Ok(()) => Ok(Flow::Fell),
        Err(Memory) => Err(Halt::Failed(RunFail::Memory)),
    }
}

// An assignment to an element.
fn assign_to_element<O: Sink, C: Calls<O>>(
    calls: &C,
    cells: &mut Cells,
    out: &mut O,
    body: &Body,
    locals: &Locals,
    outer: usize,
    op: Option<BinOp>,
    target: &Expr,
    e: &Expr,
) -> Result<Flow, Halt>
    requires words { HaveWords cells.old.rows.items }
    requires held { AreHeld locals.now.values.items }
    ensures words { HaveWords cells.new.rows.items }
    ensures sound { IfOk result IsSound }
    ensures acts { Acts (C.arrays calls.now) (run_of cells.old.rows.items (O.state out.old)) locals.now.values.items
        (assignment_to (context_at (C.arrays calls.now) (C.call calls.now) body.now) (scope_in body.now locals.now outer) None op (expr_of target.now) (expr_of e.now))
        (run_of cells.new.rows.items (O.state out.new)) locals.now.values.items result }
{
    let place = place_in(body, locals, outer);
    let s = integer_type(typing(&place.scopes, target));
    match op {
        None => {
            assign(calls, cells, out, &place, s, target, e)?;
            Ok(Flow::Fell)
        }
        Some(op) => {
            let t = integer_type(typing(&place.scopes, e));
            assign_by(calls, cells, out, &place, op, s, t, target, e)?;
            Ok(Flow::Fell)
        }
    }
}

/// An assignment (C17 6.5.16).
pub fn run_assign<O: Sink, C: Calls<O>>(
    calls: &C,
    cells: &mut Cells,
    out: &mut O,
    body: &Body,
    locals: &mut Locals,
    outer: usize,
    op: Option<BinOp>,
    target: &Expr,
    e: &Expr,
) -> Result<Flow, Halt>
    requires words { HaveWords cells.old.rows.items }
    requires held { AreHeld locals.old.values.items }
    ensures words { HaveWords cells.new.rows.items }
    ensures held { OnOk result (AreHeld locals.new.values.items) }
    ensures sound { IfOk result IsSound }
    ensures bindings { OnOk result (locals.new.bindings.items ≡ locals.old.bindings.items) }
    ensures acts { let scope = scope_in body.now locals.old outer in
        Acts (C.arrays calls.now) (run_of cells.old.rows.items (O.state out.old)) locals.old.values.items
        (assignment_to (context_at (C.arrays calls.now) (C.call calls.now) body.now) scope (variable_of scope (expr_of target.now)) op (expr_of target.now) (expr_of e.now))
        (run_of cells.new.rows.items (O.state out.new)) locals.new.values.items result }
{
    match variable_of(locals, target) {
        Some(variable) => assign_to_variable(
            calls, cells, out, body, locals, outer, variable, op, target, e,
        ),
        None => assign_to_element(calls, cells, out, body, locals, outer, op, target, e),
    }
}

// The upper bound of a loop with the head `for (T i = LO; i < HI; ..)`.
fn upper_bound<'a>(first: &Stmt, test: &'a Option<Expr>) -> Option<&'a Expr>
    ensures { option_map (λ e. expr_of e.now) result ≡ upper_bound (stmt_of first.now) (option_map expr_of test.now) }
{
    let StmtKind::Local(_, _, _, _) = &first.kind else {
        return None;
    };
    let Some(test) = test else {
        return None;
    };
    match &test.kind {
        ExprKind::Binary(BinOp::Lt, _, high) => Some(high),
        _ => None,
    }
}

/// The upper bound of a simd loop is evaluated once more behind its first part, where that didn't jump.
pub fn run_bound<O: Sink, C: Calls<O>>(
    calls: &C,
    cells: &mut Cells,
    out: &mut O,
    body: &Body,
    locals: &Locals,
    outer: usize,
    flow: Flow,
    first: &Stmt,
    test: &Option<Expr>,
) -> Result<Flow, Halt>
    requires words { HaveWords cells.old.rows.items }
    requires held { AreHeld locals.now.values.items }
    requires sound { IsSound flow }
    ensures words { HaveWords cells.new.rows.items }
    ensures sound { IfOk result IsSound }
    ensures flow { IfOk result (λ end. end ≡ Flow.Fell → flow ≡ Flow.Fell) }
    ensures acts { (outside : Point) (loops : ℕ) (b : StmtTree) →
        Acts (C.arrays calls.now) (run_of cells.old.rows.items (O.state out.old)) locals.now.values.items
        (behind_it flow (told_by (context_at (C.arrays calls.now) (C.call calls.now) body.now) outside (point_in body.now locals.now outer false loops) (stmt_of first.now) (option_map expr_of test.now) b))
        (run_of cells.new.rows.items (O.state out.new)) locals.now.values.items result }
{
    if flow.is_jump() {
        return Ok(flow);
    }
    match upper_bound(first, test) {
        Some(high) => {
            evaluate_here(calls, cells, out, body, locals, outer, high)?;
            Ok(Flow::Fell)
        }
        None => Ok(Flow::Fell),
    }
}
