// Whether a unit breaks a rule.

ghost use Rattle.std.specs.Prelude.{◌≡◌, ℕ, [], map, IfOk, IsErrOf};
ghost use Rattle.vk_ast.specs.Units.{item_of};
ghost use Rattle.vk_rules_book.specs.Rules.{faults_of};
ghost use Rattle.vk_unit_rules.specs.declared.rules.UnitRule.{UnitRule as RuleOf};
ghost use Rattle.vk_rules.specs.Verdicts.{IsRefused, IsVerdict, judged, subject_of};

use crate::accepted::{Checked, Source};
use crate::entries::entries_of;
use crate::fail::CheckFail;
use std::alloc::Global;
use vk_ast::{Item, Memory, NameTable, Unit};
use vk_kinds::Target;
use vk_rules_book::Fault;
use vk_rules_directives::judge_directives;
use vk_rules_functions::judge_functions;
use vk_rules_items::judge_items;
use vk_rules_names::Note;

// The first fault of a unit, none where it breaks no rule.
fn first_fault(
    alloc: Global,
    target: Target,
    names: &NameTable,
    items: &[Item],
) -> Result<Option<Fault>, Memory>
    ensures { IfOk result (IsVerdict (record { items = map item_of items.now; texts = names.now; target = target })) }
{
    let mut note = Note { first: None };
    judge_items(alloc, target, names, items, &mut note)?;
    judge_directives(alloc, target, names, items, &mut note)?;
    judge_functions(alloc, target, names, items, &mut note)?;
    Ok(note.first)
}

/// Accepts a unit that breaks none of the rules C8 to C18 and D1 to D19, else tells the first that it breaks: by place, then in the
/// order C, D, then by number. The rules S1 to S7 on simd loops are not judged yet.
///
/// A refused unit is dropped.
pub fn check(alloc: Global, unit: Unit, target: Target) -> Result<Checked, CheckFail>
    ensures same { IfOk result (λ checked. checked ≡ record { unit = unit; target = target }) }
    ensures accepted { IfOk result (λ checked. faults_of (judged checked) ≡ []) }
    ensures refused { (line directive : ℕ) (rule : RuleOf) → IsErrOf result (CheckFail.Rule line directive rule) →
        IsRefused (subject_of unit target) line directive rule }
{
    match first_fault(alloc, target, &unit.names, &unit.items)? {
        Some(fault) => Err(CheckFail::Rule {
            line: fault.line,
            directive: fault.directive,
            rule: fault.rule,
        }),
        None => {
            let entries = entries_of(alloc, target, &unit.names, &unit.items)?;
            Ok(Checked {
                source: Source { unit, target },
                entries,
            })
        }
    }
}
