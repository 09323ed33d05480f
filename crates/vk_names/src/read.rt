// Reading a name whose bytes are all there.
ghost use Rattle.std.specs.Prelude.{◌≡◌, ℕ, ◌<◌, ◌^◌, length, IfOk, IfErr, IsOkAnd, IsErrAnd};
ghost use Rattle.vk_names.specs.Spelling.{Name, text_of, name_in, Spells};
ghost use Rattle.vk_names.specs.declared.rules.NameRule.{NameRule};
ghost use Rattle.vk_names.specs.Refusal.{NameRefused};
ghost use Rattle.vk_names.specs.Pieces.{told_at, SaysRefused};

use crate::feed::NameFeed;
use crate::names::ReadName;
use crate::rules::NameFault;

/// Reads the name that the bytes begin with.
///
/// The text of the bytes is their longest front of letters, digits and underscores. The whole text is the name, and
/// bytes after it are not read. It is refused where `NameRefused` says so: a place from 0 and a rule from N1 to N12. A place
/// past `u32::MAX` is told as `u32::MAX`; no place is above the number of bytes. The grammar is that of "Vector Function Name
/// Mangling" in the x86-64 GNU Vector Function ABI and of the Vector Function ABI for AArch64.
pub fn read_name(bytes: &[u8]) -> Result<ReadName, NameFault>
    // The bytes spell the name that was read.
    ensures spelled { IfOk result (λ r. Spells (name_in r.head r.scalar_at r.used bytes.now) bytes.now) }
    ensures scalar { IfOk result (λ r. r.scalar_at < r.used) }
    ensures used { IfOk result (λ r. r.used ≡ length (text_of bytes.now)) }
    // The bytes are refused at this place by this rule.
    ensures refused { IfErr result (λ fault. SaysRefused bytes.now fault) }
    ensures place { length bytes.now < 2 ^ 32 → IfErr result (λ fault. NameRefused bytes.now fault.at fault.rule) }
    // What is spelled is read, and what is refused is refused so.
    ensures every_name { (name : Name) → Spells name bytes.now
        → IsOkAnd result (λ r. name_in r.head r.scalar_at r.used bytes.now ≡ name) }
    ensures every_fault { (at : ℕ) (rule : NameRule) → NameRefused bytes.now at rule
        → IsErrAnd result (λ fault. (fault.at ≡ told_at at) × (fault.rule ≡ rule)) }
{
    let mut feed = NameFeed::new();
    feed.take_all(bytes);
    feed.finish()
}
