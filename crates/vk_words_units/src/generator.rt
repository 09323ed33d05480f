// The words of `gen`.

ghost use Rattle.std.specs.Prelude.{◌≡◌, IfOk, IsErrOf, false, map, string_bytes};
ghost use Rattle.clap.specs.Words.{takes};
ghost use Rattle.vk_words.specs.Tables.{gen_table};
ghost use Rattle.vk_words_units.specs.Asked.{IsGen, IsGenUnstated};
ghost use Rattle.vk_words_units.specs.Views.{gen_asked};

use crate::values::functions_of;
use std::alloc::Global;
use vk_kinds::Isa;
use vk_words::getters::{needed, optional};
use vk_words::matching::{NoRequest, read};
use vk_words::tables::gen_command;
use vk_words::values::{isa_of, vl_of};

/// A program that the generator makes.
#[derive(Clone, Copy)]
pub struct GenRequest {
    pub isa: Isa,
    pub vl: Option<u32>,
    /// How many vector functions it has, 1 to 200.
    pub functions: u32,
}

/// What the words of `gen` ask.
pub fn gen_of(alloc: Global, words: &[String]) -> Result<GenRequest, NoRequest>
    ensures found { IfOk result (λ r. IsGen (map string_bytes words.entry.now) (gen_asked r)) }
    ensures refused { IsErrOf result NoRequest.Refused → takes gen_table (map string_bytes words.entry.now) ≡ false }
    ensures unstated { IsErrOf result NoRequest.Unstated → IsGenUnstated (map string_bytes words.entry.now) }
{
    let matches = read(gen_command(alloc)?, words)?;
    let Some(isa) = isa_of(needed(&matches, "isa")) else {
        return Err(NoRequest::Unstated);
    };
    let Some(vl) = vl_of(optional(&matches, "vl")) else {
        return Err(NoRequest::Unstated);
    };
    let Some(functions) = functions_of(needed(&matches, "N")) else {
        return Err(NoRequest::Unstated);
    };
    Ok(GenRequest { isa, vl, functions })
}
