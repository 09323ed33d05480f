// The words of `call`.

ghost use Rattle.std.specs.Prelude.{◌≡◌, IfOk, IsErrOf, false, map, string_bytes};
ghost use Rattle.clap.specs.Words.{takes};
ghost use Rattle.vk_words.specs.Tables.{call_table};
ghost use Rattle.vk_words.specs.Asked.{IsCall, IsCallUnstated};
ghost use Rattle.vk_words.specs.Views.{call_asked};

use crate::getters::{listed, needed, optional};
use crate::matching::{NoRequest, read};
use crate::tables::call_command;
use crate::values::turns_of;
use std::alloc::Global;

/// A call of an entry of an image.
#[derive(Drop)]
pub struct CallRequest<'a> {
    pub image: &'a str,
    pub name: &'a str,
    pub arguments: Vec<&'a str>,
    pub mask: Option<&'a str>,
    pub turns: u32,
}

/// What the words of `call` ask.
pub fn call_of<'a>(alloc: Global, words: &'a [String]) -> Result<CallRequest<'a>, NoRequest>
    ensures found { IfOk result (λ r. IsCall (map string_bytes words.entry.now) (call_asked r)) }
    ensures refused { IsErrOf result NoRequest.Refused → takes call_table (map string_bytes words.entry.now) ≡ false }
    ensures unstated { IsErrOf result NoRequest.Unstated → IsCallUnstated (map string_bytes words.entry.now) }
{
    let matches = read(call_command(alloc)?, words)?;
    let Some(turns) = turns_of(optional(&matches, "turns")) else {
        return Err(NoRequest::Unstated);
    };
    let arguments = listed(alloc, &matches, "ARG")?;
    Ok(CallRequest {
        image: needed(&matches, "IMG"),
        name: needed(&matches, "NAME"),
        mask: optional(&matches, "mask"),
        arguments,
        turns,
    })
}
