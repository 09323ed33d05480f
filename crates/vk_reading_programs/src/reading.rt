// The scalar reading of a program.

ghost use Rattle.std.specs.Prelude.{◌≡◌, codes, map};
ghost use Rattle.vk_meaning.specs.Programs.{arrays_of};
ghost use Rattle.vk_meaning.specs.World.{first_memory};
ghost use Rattle.vk_reading.specs.Cells.{AreRowsOf, HaveWords, memory_in};
ghost use Rattle.vk_reading.specs.Reading.{ReadsProgram};
ghost use Rattle.vk_rules.specs.Verdicts.{judged};
ghost use Rattle.vk_reading_rows.specs.Functions.{place_of};
ghost use Rattle.vk_reading_calls.specs.Right.{AreRight, subjects_of};
ghost use Rattle.vk_reading_programs.specs.Prepared.{answer_of};

use crate::preparing::prepare;
use std::alloc::Global;
use vk_io::Sink;
use vk_meaning::{Reading, RunFail};
use vk_reading::{Cells, Halt, Held};
use vk_reading_calls::{Program, ProgramUnit, call_deep};
use vk_reading_rows::functions::FunctionPlace;
use vk_rules::Checked;

// How a program ends whose `main` gave this.
fn answer_of(given: Result<Held, Halt>) -> Result<Reading, RunFail>
    ensures { result ≡ answer_of given }
{
    match given {
        Ok(_) => Ok(Reading::Done),
        Err(Halt::Halted(stop)) => Ok(Reading::Stopped(stop)),
        Err(Halt::Failed(fail)) => Err(fail),
    }
}

// Calls `main`, which is defined there, as the program begins.
fn read_units<O: Sink>(
    program: &Program,
    cells: &mut Cells,
    main: Option<FunctionPlace>,
    out: &mut O,
) -> Result<Reading, RunFail>
    requires right { AreRight program.now.units.now }
    requires main { main ≡ place_of (subjects_of program.now.units.now) (codes "main") }
    requires rows { AreRowsOf cells.old.rows.items (arrays_of (subjects_of program.now.units.now)) }
    requires memory { memory_in cells.old.rows.items ≡ first_memory (arrays_of (subjects_of program.now.units.now)) }
    requires words { HaveWords cells.old.rows.items }
    ensures { ReadsProgram (subjects_of program.now.units.now) program.now.turns (O.state out.old) (O.state out.new) result }
{
    answer_of(call_deep(program, cells, out, main))
}

/// The scalar reading of a program (C17 5.1.2.3): `out` grows by each number that it prints, on a line of its own, and the answer
/// is how it ends. It fails where the sink does or memory runs out; what was printed is then a front of the reading's text.
pub fn read_program<O: Sink>(
    alloc: Global,
    units: &[Checked],
    turns: u32,
    out: &mut O,
) -> Result<Reading, RunFail>
    ensures { ReadsProgram (map judged units.now) turns (O.state out.old) (O.state out.new) result }
{
    let Ok(prepared) = prepare(alloc, units) else {
        return Err(RunFail::Memory);
    };
    let named = prepared.named;
    let mut cells = prepared.cells;
    let program = Program {
        alloc,
        units: &named.units,
        turns: u64::from(turns),
    };
    read_units(&program, &mut cells, named.main, out)
}
