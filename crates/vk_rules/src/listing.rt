// The vector names of a unit.

ghost use Rattle.std.specs.Prelude.{◌≡◌, ◌++◌, All, IfOk, OnOk, length, map};
ghost use Rattle.vk_kinds.specs.Sizes.{head_types, signature_tree};
ghost use Rattle.vk_names.specs.Spelling.{IsScalar};
ghost use Rattle.vk_variants.specs.Directives.{IsNamed, function_names};
ghost use Rattle.vk_rules.specs.UnitNames.{HaveIdentifiers, unit_names};
ghost use Rattle.vk_rules.specs.Verdicts.{judged};

use crate::accepted::{Checked, text};
use crate::entries::Entry;
use std::alloc::Global;
use vk_kinds::Target;
use vk_memory::Memory;
use vk_variants::NameList;

/// The vector names that the directives of a unit give: functions in the order of their first declarations, the directives of each
/// in order, then letters in the order of the ABI, lengths, and N before M.
pub fn names(alloc: Global, unit: &Checked) -> Result<NameList, Memory>
    requires { HaveIdentifiers (judged unit.now) }
    ensures { IfOk result (λ list. list ≡ unit_names (judged unit.now)) }
{
    let mut list = NameList::new(alloc);
    for entry in &unit.entries {
        add_function(
            &mut list,
            unit.source.target,
            text(&unit.source.unit, entry.name),
            entry,
        )?;
    }
    Ok(list)
}

// Adds the names that the directives of a function give.
fn add_function(
    list: &mut NameList,
    target: Target,
    scalar: &[u8],
    entry: &Entry,
) -> Result<(), Memory>
    requires count { All (λ s. length entry.now.head.params.items ≡ length (signature_tree s).params) entry.now.signatures.items }
    requires in_range { All (λ s. IsNamed (signature_tree s)) entry.now.signatures.items }
    requires scalar { IsScalar scalar.now }
    ensures { OnOk result (list.new ≡ list.old
        ++ function_names target scalar.now (head_types entry.now.head) (map signature_tree entry.now.signatures.items)) }
{
    for s in &entry.signatures {
        list.add(target, scalar, &entry.head, s)?;
    }
    Ok(())
}
