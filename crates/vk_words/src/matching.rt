// What clap makes of the words.

ghost use Rattle.std.specs.Prelude.{◌≡◌, IfOk, IsErrOf, IsTrue, false, map, string_bytes};
ghost use Rattle.clap.specs.Words.{app_of, takes};
ghost use Rattle.vk_words.specs.Reading.{IsRead, is_table};
ghost use Rattle.vk_words.specs.declared.matching.NoRequest.TheVariants.{Memory};

use clap::error::ErrorKind;
use clap::{ArgMatches, Command};
use std::alloc::AllocError;

/// Why words ask nothing: the command does not take them, a value is not a stated one, or memory ran out.
#[derive(Clone, Copy, PartialEq, Eq, Debug)]
pub enum NoRequest {
    Refused,
    Unstated,
    Memory,
}

impl From<AllocError> for NoRequest {
    ghost from_gives = { λ _ e. e ≡ Memory };

    fn from(_error: AllocError) -> NoRequest {
        NoRequest::Memory
    }
}

/// The matches of the words, the command's own word first.
pub fn read<'a>(command: Command<'a>, words: &'a [String]) -> Result<ArgMatches<'a>, NoRequest>
    requires { IsTrue (is_table (app_of command)) }
    ensures ok { IfOk result (IsRead (app_of command.entry) (map string_bytes words.entry.now)) }
    ensures stated { IsErrOf result NoRequest.Unstated → ⊥ }
    ensures refused { IsErrOf result NoRequest.Refused → takes (app_of command.entry) (map string_bytes words.entry.now) ≡ false }
{
    match command.try_get_matches_from(words) {
        Ok(matches) => Ok(matches),
        Err(error) => match error.kind() {
            ErrorKind::OutOfMemory => Err(NoRequest::Memory),
            _ => Err(NoRequest::Refused),
        },
    }
}
