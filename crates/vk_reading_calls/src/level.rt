// Calls of functions that a program defines.

ghost use Rattle.std.specs.Prelude.{◌≡◌, ◌+◌, ◌<◌, [], IfOk, Some, length, suc, take};
ghost use Rattle.vk_ast.specs.Statements.{stmt_of};
ghost use Rattle.vk_ast.specs.Units.{function_of, item_of};
ghost use Rattle.vk_meaning.specs.Meaning.{called, called_where_defined};
ghost use Rattle.vk_meaning.specs.Programs.{arrays_of};
ghost use Rattle.vk_reading.specs.Cells.{HaveWords};
ghost use Rattle.vk_reading.specs.Held.{IsHeld};
ghost use Rattle.vk_reading_steps.specs.Runs.{Does, run_of};
ghost use Rattle.vk_reading_steps.specs.Settings.{AreHeld, data_of};
ghost use Rattle.vk_reading_calls.specs.Right.{AreRight, IsRight, subject_of};
ghost use Rattle.vk_reading_rows.specs.Functions.{defined_as, defined_at, defined_in};
ghost use Rattle.vk_reading_calls.specs.Views.{called_at, calls_in, definition_with, units_in};

use crate::functions::{Functions, NoFunctions};
use crate::program::{Program, ProgramUnit};
use crate::starting::{first_locals, given_by};
use crate::unit::InUnit;
use std::alloc::Global;
use vk_ast::{Function, Item, Stmt};
use vk_io::Sink;
use vk_meaning::RunFail;
use vk_reading::{Cells, Halt, Held};
use vk_reading_rows::functions::FunctionPlace;
use vk_reading_statements::{Body, run_stmt};
use vk_reading_steps::Setting;

/// Functions whose own calls go as deep as those of `F`.
#[derive(Clone, Copy)]
pub struct Level<F> {
    pub below: F,
}

// Runs the body of a function, which is the item with this number of its unit.
fn call_body<O: Sink, F: Functions<O>>(
    functions: &F,
    program: &Program,
    cells: &mut Cells,
    out: &mut O,
    unit: &ProgramUnit,
    item: usize,
    f: &Function,
    body: &Stmt,
    arguments: &[Held],
) -> Result<Held, Halt>
    requires right { AreRight program.now.units.now }
    requires unit { IsRight (units_in program.now) unit.now }
    requires item { item < length unit.now.items.now }
    requires words { HaveWords cells.old.rows.items }
    requires held { AreHeld arguments.now }
    ensures words { HaveWords cells.new.rows.items }
    ensures held { IfOk result IsHeld }
    ensures does { Does (arrays_of (units_in program.now)) (run_of cells.old.rows.items (O.state out.old))
        (called (units_in program.now) program.now.turns (calls_in (F.depth functions.now) program.now)
        (definition_with unit.now item (function_of f.now) (stmt_of body.now)) (data_of arguments.now))
        (run_of cells.new.rows.items (O.state out.new)) result }
{
    let count = unit.items.len();
    prove!(item < count);
    let file = unit.place(item + 1);
    let calls = InUnit {
        functions,
        program,
        unit,
    };
    let scopes = file.with(&[], 0);
    let here = Body {
        alloc: program.alloc,
        setting: Setting {
            numbers: &unit.numbers,
            turns: program.turns,
            text: scopes.text(f.name),
            result: f.result,
        },
        file,
    };
    let Ok(mut locals) = first_locals(program.alloc, &f.params, arguments) else {
        return Err(Halt::Failed(RunFail::Memory));
    };
    match run_stmt(&calls, cells, out, &here, &mut locals, 0, true, body) {
        Ok(flow) => Ok(given_by(f.result, flow)),
        Err(halt) => Err(halt),
    }
}

// Calls what an item defines, which has this number in its unit.
fn call_item<O: Sink, F: Functions<O>>(
    functions: &F,
    program: &Program,
    cells: &mut Cells,
    out: &mut O,
    unit: &ProgramUnit,
    number: usize,
    item: &Item,
    arguments: &[Held],
) -> Result<Held, Halt>
    requires right { AreRight program.now.units.now }
    requires unit { IsRight (units_in program.now) unit.now }
    requires item { number < length unit.now.items.now }
    requires words { HaveWords cells.old.rows.items }
    requires held { AreHeld arguments.now }
    ensures words { HaveWords cells.new.rows.items }
    ensures held { IfOk result IsHeld }
    ensures does { Does (arrays_of (units_in program.now)) (run_of cells.old.rows.items (O.state out.old))
        (called_where_defined (units_in program.now) program.now.turns (calls_in (F.depth functions.now) program.now)
        (defined_as (subject_of unit.now) (take (number + 1) (subject_of unit.now).items) (Some (item_of item.now))) (data_of arguments.now))
        (run_of cells.new.rows.items (O.state out.new)) result }
{
    match item {
        Item::Function(f) => match &f.body {
            Some(body) => call_body(
                functions, program, cells, out, unit, number, f, body, arguments,
            ),
            None => Ok(Held::Nothing),
        },
        Item::Object(_) => Ok(Held::Nothing),
        Item::Lost(_) => Ok(Held::Nothing),
    }
}

// Calls what is defined in a unit by the item with this number.
fn call_in<O: Sink, F: Functions<O>>(
    functions: &F,
    program: &Program,
    cells: &mut Cells,
    out: &mut O,
    unit: &ProgramUnit,
    number: usize,
    arguments: &[Held],
) -> Result<Held, Halt>
    requires right { AreRight program.now.units.now }
    requires unit { IsRight (units_in program.now) unit.now }
    requires words { HaveWords cells.old.rows.items }
    requires held { AreHeld arguments.now }
    ensures words { HaveWords cells.new.rows.items }
    ensures held { IfOk result IsHeld }
    ensures does { Does (arrays_of (units_in program.now)) (run_of cells.old.rows.items (O.state out.old))
        (called_where_defined (units_in program.now) program.now.turns (calls_in (F.depth functions.now) program.now)
        (defined_in (Some (subject_of unit.now)) number) (data_of arguments.now))
        (run_of cells.new.rows.items (O.state out.new)) result }
{
    match unit.items.get(number) {
        Some(item) => call_item(
            functions, program, cells, out, unit, number, item, arguments,
        ),
        None => Ok(Held::Nothing),
    }
}

// Calls what is defined there.
fn call_at<O: Sink, F: Functions<O>>(
    functions: &F,
    program: &Program,
    cells: &mut Cells,
    out: &mut O,
    at: FunctionPlace,
    arguments: &[Held],
) -> Result<Held, Halt>
    requires right { AreRight program.now.units.now }
    requires words { HaveWords cells.old.rows.items }
    requires held { AreHeld arguments.now }
    ensures words { HaveWords cells.new.rows.items }
    ensures held { IfOk result IsHeld }
    ensures does { Does (arrays_of (units_in program.now)) (run_of cells.old.rows.items (O.state out.old))
        (called_where_defined (units_in program.now) program.now.turns (calls_in (F.depth functions.now) program.now)
        (defined_at (units_in program.now) (Some at)) (data_of arguments.now))
        (run_of cells.new.rows.items (O.state out.new)) result }
{
    match program.units.get(at.unit) {
        Some(unit) => call_in(functions, program, cells, out, unit, at.item, arguments),
        None => Ok(Held::Nothing),
    }
}

impl<O: Sink, F: Functions<O>> Functions<O> for Level<F> {
    ghost depth = { λ l. suc (F.depth l.below) };

    fn call(
        &self,
        program: &Program,
        cells: &mut Cells,
        out: &mut O,
        at: Option<FunctionPlace>,
        arguments: &[Held],
    ) -> Result<Held, Halt> {
        match at {
            Some(at) => call_at(&self.below, program, cells, out, at, arguments),
            None => Ok(Held::Nothing),
        }
    }
}

type Two<F> = Level<Level<F>>;

type Four<F> = Two<Two<F>>;

type Eight<F> = Four<Four<F>>;

type Sixteen<F> = Eight<Eight<F>>;

fn two<F>(below: F) -> Two<F> {
    Level {
        below: Level { below },
    }
}

fn four<F>(below: F) -> Four<F> {
    two(two(below))
}

fn eight<F>(below: F) -> Eight<F> {
    four(four(below))
}

fn sixteen<F>(below: F) -> Sixteen<F> {
    eight(eight(below))
}

/// Calls what is defined there, without arguments. No chain of calls has more than 32 functions.
pub fn call_deep<O: Sink>(
    program: &Program,
    cells: &mut Cells,
    out: &mut O,
    at: Option<FunctionPlace>,
) -> Result<Held, Halt>
    requires right { AreRight program.now.units.now }
    requires words { HaveWords cells.old.rows.items }
    ensures does { Does (arrays_of (units_in program.now)) (run_of cells.old.rows.items (O.state out.old)) (called_at 32 program.now at [])
        (run_of cells.new.rows.items (O.state out.new)) result }
{
    let functions: Sixteen<Sixteen<NoFunctions>> = sixteen(sixteen(NoFunctions));
    functions.call(program, cells, out, at, &[])
}
