// The words of `read` and `all`.

ghost use Rattle.std.specs.Prelude.{◌≡◌, ◌∷◌, IfOk, IsErrOf, false, map, string_bytes};
ghost use Rattle.clap.specs.Words.{takes};
ghost use Rattle.vk_words.specs.Tables.{units_table};
ghost use Rattle.vk_words_units.specs.Asked.{IsUnits, IsUnitsUnstated};
ghost use Rattle.vk_words_units.specs.Views.{units_asked};

use std::alloc::{AllocError, Global};
use vk_kinds::Isa;
use vk_words::getters::{listed, needed, optional};
use vk_words::matching::{NoRequest, read};
use vk_words::tables::units_command;
use vk_words::values::{isa_of, turns_of, vl_of};

/// The most units of a program.
pub const MAX_UNITS: usize = 64;

/// A program of units.
#[derive(Drop)]
pub struct UnitsRequest<'a> {
    pub isa: Isa,
    pub vl: Option<u32>,
    pub turns: u32,
    /// The units' files, 1 to 64.
    pub units: Vec<&'a str>,
}

// A list with one more in front.
fn with_first<'a>(first: &'a str, mut more: Vec<&'a str>) -> Result<Vec<&'a str>, AllocError>
    ensures { IfOk result (λ v. map (λ s. s.now) v.items ≡ first.entry.now ∷ map (λ s. s.now) more.entry.items) }
{
    more.insert(0, first)?;
    Ok(more)
}

/// What the words of `read` or `all`, by this name of the command, ask.
pub fn units_of<'a>(
    alloc: Global,
    name: &'a str,
    words: &'a [String],
) -> Result<UnitsRequest<'a>, NoRequest>
    ensures found { IfOk result (λ r. IsUnits name.entry.now (map string_bytes words.entry.now) (units_asked r)) }
    ensures refused { IsErrOf result NoRequest.Refused → takes (units_table name.entry.now) (map string_bytes words.entry.now) ≡ false }
    ensures unstated { IsErrOf result NoRequest.Unstated → IsUnitsUnstated name.entry.now (map string_bytes words.entry.now) }
{
    let matches = read(units_command(alloc, name)?, words)?;
    let Some(isa) = isa_of(needed(&matches, "isa")) else {
        return Err(NoRequest::Unstated);
    };
    let Some(vl) = vl_of(optional(&matches, "vl")) else {
        return Err(NoRequest::Unstated);
    };
    let Some(turns) = turns_of(optional(&matches, "turns")) else {
        return Err(NoRequest::Unstated);
    };
    let more = listed(alloc, &matches, "MORE")?;
    if more.len() >= MAX_UNITS {
        return Err(NoRequest::Unstated);
    }
    let units = with_first(needed(&matches, "UNIT"), more)?;
    Ok(UnitsRequest {
        isa,
        vl,
        turns,
        units,
    })
}
