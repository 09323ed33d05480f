// The words of `clone`.

ghost use Rattle.std.specs.Prelude.{◌≡◌, IfOk, IsErrOf, false, map, string_bytes};
ghost use Rattle.clap.specs.Words.{takes};
ghost use Rattle.vk_words.specs.Tables.{clone_table};
ghost use Rattle.vk_words_units.specs.Asked.{IsClone, IsCloneUnstated};
ghost use Rattle.vk_words_units.specs.Views.{clone_asked};

use std::alloc::Global;
use vk_kinds::Target;
use vk_words::getters::needed;
use vk_words::matching::{NoRequest, read};
use vk_words::tables::clone_command;
use vk_words::values::target_of;

/// The object of a unit.
#[derive(Clone, Copy)]
pub struct CloneRequest<'a> {
    pub target: Target,
    /// The file that the object is written to.
    pub object: &'a str,
    /// The unit's file.
    pub unit: &'a str,
}

/// What the words of `clone` ask.
pub fn clone_of<'a>(alloc: Global, words: &'a [String]) -> Result<CloneRequest<'a>, NoRequest>
    ensures found { IfOk result (λ r. IsClone (map string_bytes words.entry.now) (clone_asked r)) }
    ensures refused { IsErrOf result NoRequest.Refused → takes clone_table (map string_bytes words.entry.now) ≡ false }
    ensures unstated { IsErrOf result NoRequest.Unstated → IsCloneUnstated (map string_bytes words.entry.now) }
{
    let matches = read(clone_command(alloc)?, words)?;
    let Some(target) = target_of(needed(&matches, "target")) else {
        return Err(NoRequest::Unstated);
    };
    Ok(CloneRequest {
        target,
        object: needed(&matches, "o"),
        unit: needed(&matches, "UNIT"),
    })
}
