// The command over a store and a sink.

ghost use Rattle.vk_cmd_demangle.specs.Demangle.{DemangleHolds};

use crate::names::{DemangleFail, demangled};
use std::alloc::Global;
use vk_ends::{End, Refusal, UNIT_LIMIT, print, read_input};
use vk_io::{Sink, Store};

/// Reads a file of names, judges every line and writes each name in words.
pub fn demangle<S: Store, O: Sink>(alloc: Global, file: &str, store: &mut S, out: &mut O) -> End
    ensures { DemangleHolds file.now (S.state store.old) (S.state store.new) (O.state out.old) (O.state out.new) result }
{
    let bytes = match read_input(alloc, store, file, 0, UNIT_LIMIT) {
        Ok(bytes) => bytes,
        Err(end) => return end,
    };
    let lines = match demangled(alloc, &bytes) {
        Ok(lines) => lines,
        Err(DemangleFail::Name { line, at, rule }) => {
            return End::Refused(Refusal::Name { line, at, rule });
        }
        Err(DemangleFail::Memory) => return End::Memory,
    };
    print(out, &lines)
}
