// Printed numbers.

ghost use Rattle.std.specs.Prelude.{◌≡◌, ◌++◌, ◌≤◌, length, take, IsTrue, IsErrOf, OnOk, codes};
ghost use Rattle.std.specs.Fmt.{signed_decimal};
ghost use Rattle.vk_types.specs.declared.types.Ty.TheVariants.{I64};
ghost use Rattle.vk_types.specs.Numbers.{number_of};
ghost use Rattle.vk_io.specs.Counts.{Rose};
ghost use Rattle.vk_io.specs.Sink.{Puts, Stays};

use itoa::Buffer;
use vk_io::{Outside, Sink};
use vk_types::Word;

// Writes a number as a decimal line into the first places, and says how many there are.
fn decimal_line(number: i64, line: &mut [u8]) -> usize
    requires { length line.old ≡ 21 }
    ensures inside { result ≤ 21 }
    ensures text { take result line.new ≡ signed_decimal number ++ codes "\n" }
{
    let mut digits = Buffer::new();
    let text = digits.format(number).as_bytes();
    let end = text.len();
    line[..end].copy_from_slice(text);
    line[end] = b'\n';
    end + 1
}

/// Puts the number of a `long` as a decimal line, with one call.
pub fn print_line<O: Sink>(out: &mut O, word: Word) -> Result<(), Outside>
    ensures put { IsTrue (O.state out.old).tells → Puts (O.state out.old).bytes (O.state out.new).bytes result (signed_decimal (number_of I64 word.0) ++ codes "\n") }
    ensures failed { IsErrOf result Outside.Failed → Rose (O.state out.old).faults (O.state out.new).faults }
    ensures memory { IsTrue (O.state out.old).is_lean → IsErrOf result Outside.Memory → ⊥ }
    ensures stays { Stays (O.state out.old) (O.state out.new) }
{
    let mut line = [0u8; 21];
    let length = decimal_line(word.0.cast_signed(), &mut line);
    out.put(&line[..length])
}
