// The words of `mangle`.

ghost use Rattle.std.specs.Prelude.{◌≡◌, IfOk, IsErrOf, false, map, string_bytes};
ghost use Rattle.clap.specs.Words.{takes};
ghost use Rattle.vk_words.specs.Tables.{mangle_table};
ghost use Rattle.vk_words.specs.Asked.{IsMangle, IsMangleUnstated};
ghost use Rattle.vk_words.specs.Views.{mangle_asked};

use crate::getters::needed;
use crate::matching::{NoRequest, read};
use crate::tables::mangle_command;
use crate::values::target_of;
use std::alloc::Global;
use vk_kinds::Target;

/// The vector names of a unit.
#[derive(Clone, Copy)]
pub struct MangleRequest<'a> {
    pub target: Target,
    /// The unit's file.
    pub unit: &'a str,
}

/// What the words of `mangle` ask.
pub fn mangle_of<'a>(alloc: Global, words: &'a [String]) -> Result<MangleRequest<'a>, NoRequest>
    ensures found { IfOk result (λ r. IsMangle (map string_bytes words.entry.now) (mangle_asked r)) }
    ensures refused { IsErrOf result NoRequest.Refused → takes mangle_table (map string_bytes words.entry.now) ≡ false }
    ensures unstated { IsErrOf result NoRequest.Unstated → IsMangleUnstated (map string_bytes words.entry.now) }
{
    let matches = read(mangle_command(alloc)?, words)?;
    let Some(target) = target_of(needed(&matches, "target")) else {
        return Err(NoRequest::Unstated);
    };
    Ok(MangleRequest {
        target,
        unit: needed(&matches, "UNIT"),
    })
}
