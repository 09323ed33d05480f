// The words of `link`.

ghost use Rattle.std.specs.Prelude.{◌≡◌, ◌∷◌, IfOk, IsErrOf, false, map, string_bytes};
ghost use Rattle.clap.specs.Words.{takes};
ghost use Rattle.vk_words.specs.Tables.{link_table};
ghost use Rattle.vk_words.specs.Asked.{IsLink, IsLinkUnstated};
ghost use Rattle.vk_words.specs.Views.{link_asked};

use crate::getters::{listed, needed, optional};
use crate::matching::{NoRequest, read};
use crate::tables::link_command;
use crate::values::{isa_of, vl_of};
use std::alloc::{AllocError, Global};
use vk_kinds::Isa;

/// A link of objects.
#[derive(Drop)]
pub struct LinkRequest<'a> {
    pub isa: Isa,
    pub vl: Option<u32>,
    pub image: &'a str,
    pub objects: Vec<&'a str>,
}

// A list of one more.
fn with_first<'a>(
    alloc: Global,
    first: &'a str,
    more: &[&'a str],
) -> Result<Vec<&'a str>, AllocError>
    ensures { IfOk result (λ v. map (λ s. s.now) v.items ≡ first.entry.now ∷ map (λ s. s.now) more.now) }
{
    let mut all = Vec::new(alloc);
    all.push(first)?;
    all.extend_from_slice(more)?;
    Ok(all)
}

/// What the words of `link` ask.
pub fn link_of<'a>(alloc: Global, words: &'a [String]) -> Result<LinkRequest<'a>, NoRequest>
    ensures found { IfOk result (λ r. IsLink (map string_bytes words.entry.now) (link_asked r)) }
    ensures refused { IsErrOf result NoRequest.Refused → takes link_table (map string_bytes words.entry.now) ≡ false }
    ensures unstated { IsErrOf result NoRequest.Unstated → IsLinkUnstated (map string_bytes words.entry.now) }
{
    let matches = read(link_command(alloc)?, words)?;
    let Some(isa) = isa_of(needed(&matches, "isa")) else {
        return Err(NoRequest::Unstated);
    };
    let Some(vl) = vl_of(optional(&matches, "vl")) else {
        return Err(NoRequest::Unstated);
    };
    let more = listed(alloc, &matches, "MORE")?;
    if more.len() >= 64 {
        return Err(NoRequest::Unstated);
    }
    let objects = with_first(alloc, needed(&matches, "OBJ"), &more)?;
    Ok(LinkRequest {
        isa,
        vl,
        image: needed(&matches, "o"),
        objects,
    })
}
