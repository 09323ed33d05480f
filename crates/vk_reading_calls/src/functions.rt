// Calls of functions by where they are defined.

ghost use Rattle.std.specs.Prelude.{IfOk, ℕ};
ghost use Rattle.vk_meaning.specs.Programs.{arrays_of};
ghost use Rattle.vk_reading.specs.Cells.{HaveWords};
ghost use Rattle.vk_reading.specs.Held.{IsHeld};
ghost use Rattle.vk_reading_steps.specs.Runs.{Does, run_of};
ghost use Rattle.vk_reading_steps.specs.Settings.{AreHeld, data_of};
ghost use Rattle.vk_reading_calls.specs.Right.{AreRight};
ghost use Rattle.vk_reading_calls.specs.Views.{called_at, units_in};

use crate::program::Program;
use vk_io::Sink;
use vk_reading::{Cells, Halt, Held};
use vk_reading_rows::functions::FunctionPlace;

/// What calls of functions do, where no chain of calls has more than `depth` functions.
pub trait Functions<O: Sink> {
    ghost depth: { Self → ℕ };

    /// Calls the function that is defined there on these arguments, each of its parameter's type. Nothing is given where none is.
    fn call(
        &self,
        program: &Program,
        cells: &mut Cells,
        out: &mut O,
        at: Option<FunctionPlace>,
        arguments: &[Held],
    ) -> Result<Held, Halt>
        requires right { AreRight program.now.units.now }
        requires words { HaveWords cells.old.rows.items }
        requires held { AreHeld arguments.now }
        ensures words { HaveWords cells.new.rows.items }
        ensures held { IfOk result IsHeld }
        ensures does { Does (arrays_of (units_in program.now)) (run_of cells.old.rows.items (O.state out.old)) (called_at (depth self.now) program.now at (data_of arguments.now))
            (run_of cells.new.rows.items (O.state out.new)) result };
}

/// No function: its calls give nothing.
#[derive(Clone, Copy)]
pub struct NoFunctions;

impl<O: Sink> Functions<O> for NoFunctions {
    ghost depth = { λ f. 0 };

    fn call(
        &self,
        _program: &Program,
        _cells: &mut Cells,
        _out: &mut O,
        _at: Option<FunctionPlace>,
        _arguments: &[Held],
    ) -> Result<Held, Halt> {
        Ok(Held::Nothing)
    }
}
