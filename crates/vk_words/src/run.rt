// The words of `run`.

ghost use Rattle.std.specs.Prelude.{◌≡◌, IfOk, IsErrOf, false, map, string_bytes};
ghost use Rattle.clap.specs.Words.{takes};
ghost use Rattle.vk_words.specs.Tables.{run_table};
ghost use Rattle.vk_words.specs.Asked.{IsRun, IsRunUnstated};
ghost use Rattle.vk_words.specs.Views.{run_asked};

use crate::getters::{has_flag, needed, optional};
use crate::matching::{NoRequest, read};
use crate::tables::run_command;
use crate::values::turns_of;
use std::alloc::Global;

/// A run of an image.
#[derive(Clone, Copy)]
pub struct RunRequest<'a> {
    pub image: &'a str,
    pub turns: u32,
    pub has_stats: bool,
}

/// What the words of `run` ask.
pub fn run_of<'a>(alloc: Global, words: &'a [String]) -> Result<RunRequest<'a>, NoRequest>
    ensures found { IfOk result (λ r. IsRun (map string_bytes words.entry.now) (run_asked r)) }
    ensures refused { IsErrOf result NoRequest.Refused → takes run_table (map string_bytes words.entry.now) ≡ false }
    ensures unstated { IsErrOf result NoRequest.Unstated → IsRunUnstated (map string_bytes words.entry.now) }
{
    let matches = read(run_command(alloc)?, words)?;
    let Some(turns) = turns_of(optional(&matches, "turns")) else {
        return Err(NoRequest::Unstated);
    };
    Ok(RunRequest {
        image: needed(&matches, "IMG"),
        turns,
        has_stats: has_flag(&matches, "stats"),
    })
}
