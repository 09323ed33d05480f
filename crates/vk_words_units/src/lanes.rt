// The words of `lanes` with a mask and a limit of turns.

ghost use Rattle.std.specs.Prelude.{◌≡◌, Some, IfOk, IfSome, IsErrOf, IsNone, false, map, string_bytes};
ghost use Rattle.clap.specs.Words.{app_of, rule_of, takes};
ghost use Rattle.vk_kinds.specs.declared.kinds.Isa.{Isa as IsaOf};
ghost use Rattle.vk_kinds.specs.declared.kinds.Isa.TheVariants.{S};
ghost use Rattle.vk_words.specs.Asked.{IsIsa};
ghost use Rattle.vk_words.specs.Tables.{option_rule};
ghost use Rattle.vk_words_units.specs.Lanes.{IsLanes, IsLanesUnstated, lanes_asked, lanes_table};

use clap::{Arg, ArgAction, Command};
use std::alloc::{AllocError, Global};
use vk_kinds::Isa;
use vk_words::getters::{listed, needed, optional};
use vk_words::matching::{NoRequest, read};
use vk_words::tables;
use vk_words::values::{isa_of, turns_of};

/// A call of a variant of a unit.
#[derive(Drop)]
pub struct LanesRequest<'a> {
    /// The letter that the unit is compiled for, any but `s`.
    pub isa: Isa,
    /// The unit's file.
    pub unit: &'a str,
    /// The name of a variant, or of a function.
    pub name: &'a str,
    /// The texts of its arguments.
    pub arguments: Vec<&'a str>,
    /// The text of the mask, where there is one.
    pub mask: Option<&'a str>,
    /// How many turns each loop makes at most, 1 to 1000000000.
    pub turns: u32,
}

// `--name VALUE`.
fn option<'a>(alloc: Global, name: &'a str) -> Arg<'a>
    ensures rule { rule_of result ≡ option_rule name.entry.now }
    ensures own { result.global ≡ false }
{
    Arg::new(alloc, name).long(name).action(ArgAction::Set)
}

// `lanes --isa I [--mask BITS] [--turns N] UNIT NAME ARG..`
fn lanes_command<'a>(alloc: Global) -> Result<Command<'a>, AllocError>
    ensures { IfOk result (λ c. app_of c ≡ lanes_table) }
{
    tables::lanes_command(alloc)?
        .arg(option(alloc, "mask"))?
        .arg(option(alloc, "turns"))
}

// The instruction set of a letter whose vectors have one length.
fn fixed_isa_of(text: &str) -> Option<Isa>
    ensures found { IfSome result (λ isa. IsIsa (Some text.now) isa × (isa ≡ S → ⊥)) }
    ensures none { IsNone result → (isa : IsaOf) → IsIsa (Some text.now) isa → isa ≡ S }
{
    match isa_of(text) {
        Some(Isa::S) => None,
        Some(isa) => Some(isa),
        None => None,
    }
}

/// What the words of `lanes --isa I [--mask BITS] [--turns N] UNIT NAME ARG..` ask. The letter `s` is not a stated one yet.
pub fn lanes_of<'a>(alloc: Global, words: &'a [String]) -> Result<LanesRequest<'a>, NoRequest>
    ensures found { IfOk result (λ r. IsLanes (map string_bytes words.entry.now) (lanes_asked r)) }
    ensures refused { IsErrOf result NoRequest.Refused → takes lanes_table (map string_bytes words.entry.now) ≡ false }
    ensures unstated { IsErrOf result NoRequest.Unstated → IsLanesUnstated (map string_bytes words.entry.now) }
{
    let matches = read(lanes_command(alloc)?, words)?;
    let Some(isa) = fixed_isa_of(needed(&matches, "isa")) else {
        return Err(NoRequest::Unstated);
    };
    let Some(turns) = turns_of(optional(&matches, "turns")) else {
        return Err(NoRequest::Unstated);
    };
    let arguments = listed(alloc, &matches, "ARG")?;
    Ok(LanesRequest {
        isa,
        unit: needed(&matches, "UNIT"),
        name: needed(&matches, "NAME"),
        arguments,
        mask: optional(&matches, "mask"),
        turns,
    })
}
