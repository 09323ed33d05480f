// The built-in function.

ghost use Rattle.std.specs.Prelude.{◌≡◌, ◌++◌, ◌∷◌, [], IfOk, IsErrOf, IsTrue, List, MatchResult};
ghost use Rattle.vk_types.specs.Numbers.{IsCanonical, number_of};
ghost use Rattle.vk_io.specs.Counts.{Rose};
ghost use Rattle.vk_io.specs.Sink.{GrowsWithin, Stays};
ghost use Rattle.vk_meaning.specs.World.{Array};
ghost use Rattle.vk_meaning.specs.Meaning.{line_of, print_first};
ghost use Rattle.vk_meaning.specs.declared.reading.RunFail.TheVariants as RunFail;
ghost use Rattle.vk_reading.specs.Held.{IsHeld, datum_of};
ghost use Rattle.vk_reading.specs.declared.cells.Row.{Row};
ghost use Rattle.vk_reading_steps.specs.Runs.{Does, run_of};
ghost use Rattle.vk_reading_steps.specs.Settings.{AreHeld, data_of};

use std::alloc::Global;
use vk_io::{Outside, Sink};
use vk_meaning::RunFail;
use vk_reading::held::number_in;
use vk_reading::{Halt, Held, Typed};
use vk_types::number;

// Puts a number on a line of its own, by one `put`.
fn print_number<O: Sink>(alloc: Global, out: &mut O, n: Typed) -> Result<(), RunFail>
    requires { IsCanonical n.ty n.word.0 }
    ensures put { IsTrue (O.state out.old).tells → MatchResult result
        (λ _. (O.state out.new).bytes ≡ (O.state out.old).bytes ++ line_of (number_of n.ty n.word.0))
        (λ _. GrowsWithin (O.state out.old).bytes (O.state out.new).bytes (line_of (number_of n.ty n.word.0))) }
    ensures failed { IsErrOf result RunFail.Write → Rose (O.state out.old).faults (O.state out.new).faults }
    ensures stays { Stays (O.state out.old) (O.state out.new) }
{
    let value = number(n.ty, n.word);
    let Ok(line) = format!(in alloc; "{value}\n") else {
        return Err(RunFail::Memory);
    };
    match out.put(line.as_bytes()) {
        Ok(()) => Ok(()),
        Err(Outside::Failed) => Err(RunFail::Write),
        Err(Outside::Memory) => Err(RunFail::Memory),
    }
}

// `print` on one argument.
fn print_held<O: Sink>(alloc: Global, out: &mut O, held: Held) -> Result<Held, Halt>
    requires { IsHeld held }
    ensures held { IfOk result IsHeld }
    ensures does { (arrays : List Array) (rows : List Row) → Does arrays (run_of rows (O.state out.old)) (print_first (datum_of held ∷ [])) (run_of rows (O.state out.new)) result }
{
    match print_number(alloc, out, number_in(held)) {
        Ok(()) => Ok(Held::Nothing),
        Err(fail) => Err(Halt::Failed(fail)),
    }
}

/// `print` on these arguments.
pub fn print_first<O: Sink>(alloc: Global, out: &mut O, arguments: &[Held]) -> Result<Held, Halt>
    requires { AreHeld arguments.now }
    ensures held { IfOk result IsHeld }
    ensures does { (arrays : List Array) (rows : List Row) → Does arrays (run_of rows (O.state out.old)) (print_first (data_of arguments.now)) (run_of rows (O.state out.new)) result }
{
    match arguments {
        [] => Ok(Held::Nothing),
        [first, ..] => print_held(alloc, out, *first),
    }
}
