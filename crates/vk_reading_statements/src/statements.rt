// Statements are run (C17 6.8).

ghost use Rattle.std.specs.Prelude.{◌≡◌, ℕ, IfOk, OnOk, length, take, false};
ghost use Rattle.vk_ast.specs.Statements.{list_stmts, stmt_of};
ghost use Rattle.vk_meaning.specs.Statements.{condition_of, repeat, run, run_all, run_simd, turns};
ghost use Rattle.vk_reading.specs.Cells.{HaveWords};
ghost use Rattle.vk_rules_book.specs.Visits.{after, after_all};
ghost use Rattle.vk_reading_steps.specs.Runs.{run_of};
ghost use Rattle.vk_reading_steps.specs.Settings.{AreHeld};
ghost use Rattle.vk_reading_statements.specs.Acts.{Acts};
ghost use Rattle.vk_reading_statements.specs.Flows.{IsSound, behind_it};
ghost use Rattle.vk_reading_statements.specs.Loops.{test_in, turn_of};
ghost use Rattle.vk_reading_statements.specs.Places.{context_at, point_in, scope_in};

use crate::body::{Body, Locals};
use crate::flow::Flow;
use crate::parts::{holds, run_assign, run_bound, run_local, run_return, run_value, test};
use vk_ast::{Stmt, StmtKind};
use vk_io::Sink;
use vk_kinds::CType;
use vk_reading::{Cells, Halt};
use vk_reading_steps::calls::Calls;
use vk_rules_book::Binding;
use vk_types::Stop;

/// Runs a statement. What it declares stays visible behind it.
#[cycle(running)]
pub fn run_stmt<O: Sink, C: Calls<O>>(
    calls: &C,
    cells: &mut Cells,
    out: &mut O,
    body: &Body,
    locals: &mut Locals,
    outer: usize,
    shares: bool,
    s: &Stmt,
) -> Result<Flow, Halt>
    requires words { HaveWords cells.old.rows.items }
    requires held { AreHeld locals.old.values.items }
    ensures words { HaveWords cells.new.rows.items }
    ensures held { OnOk result (AreHeld locals.new.values.items) }
    ensures sound { IfOk result IsSound }
    ensures visible { OnOk result (take (length locals.old.bindings.items) locals.new.bindings.items ≡ locals.old.bindings.items) }
    ensures scope { IfOk result (λ flow. flow ≡ Flow.Fell → scope_in body.now locals.new outer ≡ after shares (scope_in body.now locals.old outer) (stmt_of s.now)) }
    ensures acts { (loops : ℕ) → Acts (C.arrays calls.now) (run_of cells.old.rows.items (O.state out.old)) locals.old.values.items
        (run (context_at (C.arrays calls.now) (C.call calls.now) body.now) (point_in body.now locals.old outer shares loops) (stmt_of s.now))
        (run_of cells.new.rows.items (O.state out.new)) locals.new.values.items result }
{
    match &s.kind {
        StmtKind::Empty | StmtKind::Lost(_) => Ok(Flow::Fell),
        StmtKind::Block(ss) => {
            if shares {
                run_all(calls, cells, out, body, locals, outer, ss)
            } else {
                run_block(calls, cells, out, body, locals, ss)
            }
        }
        StmtKind::Local(ty, fixed, id, init) => {
            let binding = Binding {
                name: *id,
                ctype: CType::Int(*ty),
                fixed: *fixed,
            };
            run_local(calls, cells, out, body, locals, outer, binding, init)
        }
        StmtKind::Assign(op, target, e) => run_assign(
            calls, cells, out, body, locals, outer, *op, target, e,
        ),
        StmtKind::Value(e) => run_value(calls, cells, out, body, locals, outer, e),
        StmtKind::If(e, first, second) => {
            if holds(calls, cells, out, body, locals, outer, e)? {
                return run_inside(calls, cells, out, body, locals, first);
            }
            match second {
                Some(second) => run_inside(calls, cells, out, body, locals, second),
                None => Ok(Flow::Fell),
            }
        }
        StmtKind::While(_, _) => run_while(calls, cells, out, body, locals, outer, s),
        StmtKind::Do(_, _) => run_turns(calls, cells, out, body, locals, outer, s),
        StmtKind::For(first, _, _, _) => {
            let mark = locals.bindings.len();
            let flow = run_stmt(calls, cells, out, body, locals, mark, true, first)?;
            let end = run_rounds(calls, cells, out, body, locals, mark, flow, s)?;
            locals.cut(mark);
            Ok(end)
        }
        StmtKind::Break => Ok(Flow::Broke),
        StmtKind::Continue => Ok(Flow::Continued),
        StmtKind::Return(e) => run_return(calls, cells, out, body, locals, outer, e),
        StmtKind::Simd(_, s) => run_simd(calls, cells, out, body, locals, s),
    }
}

// The loop behind a `simd` line.
#[cycle(running)]
fn run_simd<O: Sink, C: Calls<O>>(
    calls: &C,
    cells: &mut Cells,
    out: &mut O,
    body: &Body,
    locals: &mut Locals,
    s: &Stmt,
) -> Result<Flow, Halt>
    requires words { HaveWords cells.old.rows.items }
    requires held { AreHeld locals.old.values.items }
    ensures words { HaveWords cells.new.rows.items }
    ensures held { OnOk result (AreHeld locals.new.values.items) }
    ensures sound { IfOk result IsSound }
    ensures same { OnOk result (locals.new.bindings.items ≡ locals.old.bindings.items) }
    ensures acts { (loops : ℕ) → Acts (C.arrays calls.now) (run_of cells.old.rows.items (O.state out.old)) locals.old.values.items
        (run_simd (context_at (C.arrays calls.now) (C.call calls.now) body.now) (point_in body.now locals.old (length locals.old.bindings.items) false loops) (stmt_of s.now))
        (run_of cells.new.rows.items (O.state out.new)) locals.new.values.items result }
{
    match &s.kind {
        StmtKind::For(first, test, _, _) => {
            let mark = locals.bindings.len();
            let flow = run_stmt(calls, cells, out, body, locals, mark, true, first)?;
            let flow = run_bound(calls, cells, out, body, locals, mark, flow, first, test)?;
            let end = run_rounds(calls, cells, out, body, locals, mark, flow, s)?;
            locals.cut(mark);
            Ok(end)
        }
        _ => Ok(Flow::Fell),
    }
}

// The turns of a loop whose first part ended so.
#[cycle(running)]
fn run_rounds<O: Sink, C: Calls<O>>(
    calls: &C,
    cells: &mut Cells,
    out: &mut O,
    body: &Body,
    locals: &mut Locals,
    outer: usize,
    flow: Flow,
    s: &Stmt,
) -> Result<Flow, Halt>
    requires words { HaveWords cells.old.rows.items }
    requires held { AreHeld locals.old.values.items }
    requires sound { IsSound flow }
    ensures words { HaveWords cells.new.rows.items }
    ensures held { OnOk result (AreHeld locals.new.values.items) }
    ensures sound { IfOk result IsSound }
    ensures same { OnOk result (locals.new.bindings.items ≡ locals.old.bindings.items) }
    ensures acts { (loops : ℕ) → Acts (C.arrays calls.now) (run_of cells.old.rows.items (O.state out.old)) locals.old.values.items
        (behind_it flow (repeat body.now.setting.turns (condition_of (context_at (C.arrays calls.now) (C.call calls.now) body.now) (scope_in body.now locals.old outer) (test_in (stmt_of s.now)))
        (turn_of (context_at (C.arrays calls.now) (C.call calls.now) body.now) (point_in body.now locals.old outer false loops) (stmt_of s.now))))
        (run_of cells.new.rows.items (O.state out.new)) locals.new.values.items result }
{
    if flow.is_jump() {
        return Ok(flow);
    }
    run_while(calls, cells, out, body, locals, outer, s)
}

// A loop whose condition comes first.
#[cycle(running)]
fn run_while<O: Sink, C: Calls<O>>(
    calls: &C,
    cells: &mut Cells,
    out: &mut O,
    body: &Body,
    locals: &mut Locals,
    outer: usize,
    s: &Stmt,
) -> Result<Flow, Halt>
    requires words { HaveWords cells.old.rows.items }
    requires held { AreHeld locals.old.values.items }
    ensures words { HaveWords cells.new.rows.items }
    ensures held { OnOk result (AreHeld locals.new.values.items) }
    ensures sound { IfOk result IsSound }
    ensures same { OnOk result (locals.new.bindings.items ≡ locals.old.bindings.items) }
    ensures acts { (loops : ℕ) → Acts (C.arrays calls.now) (run_of cells.old.rows.items (O.state out.old)) locals.old.values.items
        (repeat body.now.setting.turns (condition_of (context_at (C.arrays calls.now) (C.call calls.now) body.now) (scope_in body.now locals.old outer) (test_in (stmt_of s.now)))
        (turn_of (context_at (C.arrays calls.now) (C.call calls.now) body.now) (point_in body.now locals.old outer false loops) (stmt_of s.now)))
        (run_of cells.new.rows.items (O.state out.new)) locals.new.values.items result }
{
    if test(calls, cells, out, body, locals, outer, s)? {
        return run_turns(calls, cells, out, body, locals, outer, s);
    }
    Ok(Flow::Fell)
}

// A loop whose condition comes behind each turn.
#[cycle(running)]
fn run_turns<O: Sink, C: Calls<O>>(
    calls: &C,
    cells: &mut Cells,
    out: &mut O,
    body: &Body,
    locals: &mut Locals,
    outer: usize,
    s: &Stmt,
) -> Result<Flow, Halt>
    requires words { HaveWords cells.old.rows.items }
    requires held { AreHeld locals.old.values.items }
    ensures words { HaveWords cells.new.rows.items }
    ensures held { OnOk result (AreHeld locals.new.values.items) }
    ensures sound { IfOk result IsSound }
    ensures same { OnOk result (locals.new.bindings.items ≡ locals.old.bindings.items) }
    ensures acts { (loops : ℕ) → Acts (C.arrays calls.now) (run_of cells.old.rows.items (O.state out.old)) locals.old.values.items
        (turns body.now.setting.turns (condition_of (context_at (C.arrays calls.now) (C.call calls.now) body.now) (scope_in body.now locals.old outer) (test_in (stmt_of s.now)))
        (turn_of (context_at (C.arrays calls.now) (C.call calls.now) body.now) (point_in body.now locals.old outer false loops) (stmt_of s.now)))
        (run_of cells.new.rows.items (O.state out.new)) locals.new.values.items result }
{
    let mut left = body.setting.turns;
    while left > 0 {
        left -= 1;
        let flow = run_turn(calls, cells, out, body, locals, outer, s)?;
        if flow.leaves_loop() {
            return Ok(flow.behind_loop());
        }
        if !test(calls, cells, out, body, locals, outer, s)? {
            return Ok(Flow::Fell);
        }
    }
    Err(Halt::Halted(Stop::Turns))
}

// One turn of a loop: its body, and the third part of a `for`.
#[cycle(running)]
fn run_turn<O: Sink, C: Calls<O>>(
    calls: &C,
    cells: &mut Cells,
    out: &mut O,
    body: &Body,
    locals: &mut Locals,
    outer: usize,
    s: &Stmt,
) -> Result<Flow, Halt>
    requires words { HaveWords cells.old.rows.items }
    requires held { AreHeld locals.old.values.items }
    ensures words { HaveWords cells.new.rows.items }
    ensures held { OnOk result (AreHeld locals.new.values.items) }
    ensures sound { IfOk result IsSound }
    ensures same { OnOk result (locals.new.bindings.items ≡ locals.old.bindings.items) }
    ensures acts { (loops : ℕ) → Acts (C.arrays calls.now) (run_of cells.old.rows.items (O.state out.old)) locals.old.values.items
        (turn_of (context_at (C.arrays calls.now) (C.call calls.now) body.now) (point_in body.now locals.old outer false loops) (stmt_of s.now))
        (run_of cells.new.rows.items (O.state out.new)) locals.new.values.items result }
{
    match &s.kind {
        StmtKind::While(_, stmt) => run_inside(calls, cells, out, body, locals, stmt),
        StmtKind::Do(stmt, _) => run_inside(calls, cells, out, body, locals, stmt),
        StmtKind::For(_, _, third, stmt) => {
            let flow = run_inside(calls, cells, out, body, locals, stmt)?;
            if flow.leaves_loop() {
                return Ok(flow);
            }
            run_apart(calls, cells, out, body, locals, outer, third)
        }
        _ => Ok(Flow::Fell),
    }
}

// A statement, after which nothing that it declares is visible.
#[cycle(running)]
fn run_apart<O: Sink, C: Calls<O>>(
    calls: &C,
    cells: &mut Cells,
    out: &mut O,
    body: &Body,
    locals: &mut Locals,
    outer: usize,
    s: &Stmt,
) -> Result<Flow, Halt>
    requires words { HaveWords cells.old.rows.items }
    requires held { AreHeld locals.old.values.items }
    ensures words { HaveWords cells.new.rows.items }
    ensures held { OnOk result (AreHeld locals.new.values.items) }
    ensures sound { IfOk result IsSound }
    ensures same { OnOk result (locals.new.bindings.items ≡ locals.old.bindings.items) }
    ensures acts { (loops : ℕ) → Acts (C.arrays calls.now) (run_of cells.old.rows.items (O.state out.old)) locals.old.values.items
        (run (context_at (C.arrays calls.now) (C.call calls.now) body.now) (point_in body.now locals.old outer false loops) (stmt_of s.now))
        (run_of cells.new.rows.items (O.state out.new)) locals.new.values.items result }
{
    let mark = locals.bindings.len();
    let flow = run_stmt(calls, cells, out, body, locals, outer, false, s)?;
    locals.cut(mark);
    Ok(flow)
}

// A statement in a scope of its own.
#[cycle(running)]
fn run_inside<O: Sink, C: Calls<O>>(
    calls: &C,
    cells: &mut Cells,
    out: &mut O,
    body: &Body,
    locals: &mut Locals,
    s: &Stmt,
) -> Result<Flow, Halt>
    requires words { HaveWords cells.old.rows.items }
    requires held { AreHeld locals.old.values.items }
    ensures words { HaveWords cells.new.rows.items }
    ensures held { OnOk result (AreHeld locals.new.values.items) }
    ensures sound { IfOk result IsSound }
    ensures same { OnOk result (locals.new.bindings.items ≡ locals.old.bindings.items) }
    ensures acts { (loops : ℕ) → Acts (C.arrays calls.now) (run_of cells.old.rows.items (O.state out.old)) locals.old.values.items
        (run (context_at (C.arrays calls.now) (C.call calls.now) body.now) (point_in body.now locals.old (length locals.old.bindings.items) false loops) (stmt_of s.now))
        (run_of cells.new.rows.items (O.state out.new)) locals.new.values.items result }
{
    let outer = locals.bindings.len();
    run_apart(calls, cells, out, body, locals, outer, s)
}

// A block in a scope of its own.
#[cycle(running)]
fn run_block<O: Sink, C: Calls<O>>(
    calls: &C,
    cells: &mut Cells,
    out: &mut O,
    body: &Body,
    locals: &mut Locals,
    ss: &[Stmt],
) -> Result<Flow, Halt>
    requires words { HaveWords cells.old.rows.items }
    requires held { AreHeld locals.old.values.items }
    ensures words { HaveWords cells.new.rows.items }
    ensures held { OnOk result (AreHeld locals.new.values.items) }
    ensures sound { IfOk result IsSound }
    ensures same { OnOk result (locals.new.bindings.items ≡ locals.old.bindings.items) }
    ensures acts { (loops : ℕ) → Acts (C.arrays calls.now) (run_of cells.old.rows.items (O.state out.old)) locals.old.values.items
        (run_all (context_at (C.arrays calls.now) (C.call calls.now) body.now) (point_in body.now locals.old (length locals.old.bindings.items) false loops) (list_stmts ss.now))
        (run_of cells.new.rows.items (O.state out.new)) locals.new.values.items result }
{
    let mark = locals.bindings.len();
    let flow = run_all(calls, cells, out, body, locals, mark, ss)?;
    locals.cut(mark);
    Ok(flow)
}

// Statements one after another.
#[cycle(running)]
fn run_all<O: Sink, C: Calls<O>>(
    calls: &C,
    cells: &mut Cells,
    out: &mut O,
    body: &Body,
    locals: &mut Locals,
    outer: usize,
    ss: &[Stmt],
) -> Result<Flow, Halt>
    requires words { HaveWords cells.old.rows.items }
    requires held { AreHeld locals.old.values.items }
    ensures words { HaveWords cells.new.rows.items }
    ensures held { OnOk result (AreHeld locals.new.values.items) }
    ensures sound { IfOk result IsSound }
    ensures visible { OnOk result (take (length locals.old.bindings.items) locals.new.bindings.items ≡ locals.old.bindings.items) }
    ensures scope { IfOk result (λ flow. flow ≡ Flow.Fell → scope_in body.now locals.new outer ≡ after_all (scope_in body.now locals.old outer) (list_stmts ss.now)) }
    ensures acts { (loops : ℕ) → Acts (C.arrays calls.now) (run_of cells.old.rows.items (O.state out.old)) locals.old.values.items
        (run_all (context_at (C.arrays calls.now) (C.call calls.now) body.now) (point_in body.now locals.old outer false loops) (list_stmts ss.now))
        (run_of cells.new.rows.items (O.state out.new)) locals.new.values.items result }
{
    for s in ss {
        let flow = run_stmt(calls, cells, out, body, locals, outer, false, s)?;
        if flow.is_jump() {
            return Ok(flow);
        }
    }
    Ok(Flow::Fell)
}
