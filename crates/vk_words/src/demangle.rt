// The words of `demangle`.

ghost use Rattle.std.specs.Prelude.{◌≡◌, IfOk, IsErrOf, false, map, string_bytes};
ghost use Rattle.clap.specs.Words.{takes};
ghost use Rattle.vk_words.specs.Tables.{demangle_table};
ghost use Rattle.vk_words.specs.Asked.{IsDemangle};

use crate::getters::needed;
use crate::matching::{NoRequest, read};
use crate::tables::demangle_command;
use std::alloc::Global;

/// The file of names that the words of `demangle` name.
pub fn demangle_of<'a>(alloc: Global, words: &'a [String]) -> Result<&'a str, NoRequest>
    ensures found { IfOk result (λ file. IsDemangle (map string_bytes words.entry.now) file.now) }
    ensures refused { IsErrOf result NoRequest.Refused → takes demangle_table (map string_bytes words.entry.now) ≡ false }
    ensures unstated { IsErrOf result NoRequest.Unstated → ⊥ }
{
    let matches = read(demangle_command(alloc)?, words)?;
    Ok(needed(&matches, "FILE"))
}
