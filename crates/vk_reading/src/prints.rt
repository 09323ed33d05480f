// Printed numbers.

ghost use Rattle.std.specs.Prelude.{◌≡◌, ◌++◌, IsErrOf, IsTrue, MatchResult};
ghost use Rattle.vk_types.specs.declared.types.Ty.TheVariants.{I64};
ghost use Rattle.vk_types.specs.Numbers.{IsCanonical, number_of};
ghost use Rattle.vk_io.specs.Counts.{Rose};
ghost use Rattle.vk_io.specs.Sink.{GrowsWithin, Stays};
ghost use Rattle.vk_meaning.specs.Meaning.{line_of};
ghost use Rattle.vk_meaning.specs.declared.reading.RunFail.TheVariants as RunFail;

use std::alloc::Global;
use vk_io::{Outside, Sink};
use vk_meaning::RunFail;
use vk_types::Word;

/// Puts a number of the type `long` on a line of its own, by one `put`.
pub fn print<O: Sink>(alloc: Global, out: &mut O, number: Word) -> Result<(), RunFail>
    requires { IsCanonical I64 number.0 }
    ensures put { IsTrue (O.state out.old).tells → MatchResult result
        (λ _. (O.state out.new).bytes ≡ (O.state out.old).bytes ++ line_of (number_of I64 number.0))
        (λ _. GrowsWithin (O.state out.old).bytes (O.state out.new).bytes (line_of (number_of I64 number.0))) }
    ensures failed { IsErrOf result RunFail.Write → Rose (O.state out.old).faults (O.state out.new).faults }
    ensures stays { Stays (O.state out.old) (O.state out.new) }
{
    let value = number.0.cast_signed();
    let Ok(line) = format!(in alloc; "{value}\n") else {
        return Err(RunFail::Memory);
    };
    match out.put(line.as_bytes()) {
        Ok(()) => Ok(()),
        Err(Outside::Failed) => Err(RunFail::Write),
        Err(Outside::Memory) => Err(RunFail::Memory),
    }
}
