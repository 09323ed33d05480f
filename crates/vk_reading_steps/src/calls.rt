// Calls of functions.

ghost use Rattle.std.specs.Prelude.{IfOk, List};
ghost use Rattle.vk_ast.specs.declared.names.NameId.{NameId};
ghost use Rattle.vk_meaning.specs.World.{Array};
ghost use Rattle.vk_meaning.specs.Data.{Action, Datum};
ghost use Rattle.vk_reading.specs.Cells.{HaveWords};
ghost use Rattle.vk_reading.specs.Held.{IsHeld};
ghost use Rattle.vk_reading_steps.specs.Runs.{Adds, Does, run_of};
ghost use Rattle.vk_reading_steps.specs.Settings.{AreHeld, data_of};

use vk_ast::NameId;
use vk_io::Sink;
use vk_reading::{Cells, Halt, Held};

/// What calls of functions do, by their names in a unit.
pub trait Calls<O: Sink> {
    /// The arrays of the program, and the meaning of a call.
    ghost arrays: { Self → List Array };

    ghost call: { Self → NameId → List Datum → Action };

    /// Calls the function on these arguments, each of its parameter's type.
    fn call(
        &self,
        cells: &mut Cells,
        out: &mut O,
        id: NameId,
        arguments: &[Held],
    ) -> Result<Held, Halt>
        requires words { HaveWords cells.old.rows.items }
        requires held { AreHeld arguments.now }
        ensures words { HaveWords cells.new.rows.items }
        ensures held { IfOk result IsHeld }
        ensures does { Does (arrays self.now) (run_of cells.old.rows.items (O.state out.old)) (call self.now id (data_of arguments.now))
            (run_of cells.new.rows.items (O.state out.new)) result };

    ghost adds: { (c : Self) (id : NameId) (ds : List Datum) → Adds (call c id ds) };
}
