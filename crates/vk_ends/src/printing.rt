// Prints the lines of a command.

ghost use Rattle.std.specs.Prelude.{◌≡◌, IsTrue};
ghost use Rattle.std.specs.List.{concat};
ghost use Rattle.vk_io.specs.Counts.{Rose};
ghost use Rattle.vk_io.specs.Sink.{Stays};
ghost use Rattle.vk_ends.specs.Printing.{IsPrinted, Prints};

use crate::ends::End;
use vk_io::{Lines, Outside, Sink, put_lines};

/// Puts each line with a call of its own, and says how the command ended: done, with a write fault, or for want of memory.
pub fn print<O: Sink>(out: &mut O, lines: &Lines) -> End
    ensures possible { IsPrinted result }
    ensures prints { IsTrue (O.state out.old).tells → Prints (concat lines.now) (O.state out.old).bytes (O.state out.new).bytes result }
    ensures unwritten { result ≡ End.WriteFault → Rose (O.state out.old).faults (O.state out.new).faults }
    ensures stays { Stays (O.state out.old) (O.state out.new) }
{
    match put_lines(out, lines) {
        Ok(()) => End::Done,
        Err(Outside::Failed) => End::WriteFault,
        Err(Outside::Memory) => End::Memory,
    }
}
