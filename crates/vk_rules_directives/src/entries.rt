// The rules on names that clauses list: D2, D3, D8, D13 and D14.

ghost use Rattle.std.specs.Prelude.{◌≡◌, ◌||◌, [], true, false, IfOk, OnOk};
ghost use Rattle.vk_ast.specs.declared.names.NameId.{NameId};
ghost use Rattle.vk_ast.specs.Directives.{directive_of};
ghost use Rattle.vk_ast.specs.Units.{function_of};
ghost use Rattle.vk_rules_book.specs.Noting.{found};
ghost use Rattle.vk_rules_book.specs.Visits.{entry_visits};
ghost use Rattle.vk_rules_names.specs.Seen.{unit_of};
ghost use Rattle.vk_rules_directives.specs.Inner.Tables.{AreTypes, Holds, has, lists_as, nothing, type_at};
ghost use Rattle.vk_rules_book.specs.Faults.{directive_fault, first_among};
ghost use Rattle.vk_rules_book.specs.Directives.{all_entry_faults, is_aligned, is_empty, is_listed, is_uniform_list};
ghost use Rattle.vk_rules_directives.specs.Inner.Tests.{entry_faults_by, is_pointer, is_written};

use crate::joins::{both, join};
use crate::names::{NameSet, type_at};
use vk_ast::{Directive, Function, Memory};
use vk_kinds::CType;
use vk_rules_book::{Entry, Fault, Listed};
use vk_rules_names::{Note, Place, fault_with};
use vk_unit_rules::UnitRule;

fn is_pointer(ctype: Option<CType>) -> bool
    ensures { result ≡ is_pointer ctype }
{
    match ctype {
        Some(CType::Ptr { .. }) => true,
        _ => false,
    }
}

fn is_written(ctype: Option<CType>) -> bool
    ensures { result ≡ is_written ctype }
{
    match ctype {
        Some(CType::Ptr { to: _, written }) => written,
        _ => false,
    }
}

fn is_aligned(listed: Listed) -> bool
    ensures { result ≡ is_aligned listed }
{
    matches!(listed, Listed::Aligned)
}

pub(crate) fn is_uniform(listed: Listed) -> bool
    ensures { result ≡ is_uniform_list listed }
{
    matches!(listed, Listed::Uniform)
}

// A fault at one of a directive's tokens.
pub(crate) fn directive_fault(d: &Directive, token: u32, rule: UnitRule) -> Fault
    ensures { result ≡ directive_fault (directive_of d.now) token rule }
{
    fault_with(d.line, token, rule, d.number)
}

// Judges a listed name by its parameter's type and by whether it was listed before; the answer is whether it breaks no rule.
#[tactic(auto, using(vk_rules_book::proofs::Noting::among_append))]
fn judge_listed(
    ctype: Option<CType>,
    by_shape: bool,
    by_aligned: bool,
    d: &Directive,
    e: Entry,
    note: &mut Note,
)
    ensures { note.new.first ≡ first_among note.old.first (entry_faults_by ctype by_shape by_aligned (directive_of d.now) e) }
{
    let aligned = is_aligned(e.listed);
    note.add(ctype.is_none(), directive_fault(d, e.token, UnitRule::D2));
    note.add(
        !aligned && by_shape,
        directive_fault(d, e.token, UnitRule::D3),
    );
    note.add(
        aligned && (ctype.is_some() && !is_pointer(ctype)),
        directive_fault(d, e.token, UnitRule::D8),
    );
    note.add(
        aligned && by_aligned,
        directive_fault(d, e.token, UnitRule::D13),
    );
    note.add(
        is_uniform(e.listed) && is_written(ctype),
        directive_fault(d, e.token, UnitRule::D14),
    );
}

// A directive of a function, at a place of a unit, with the types of the function's parameters by their names.
#[derive(Clone, Copy)]
pub(crate) struct At<'p, 'u, 'f, 'd, 't> {
    pub(crate) place: &'p Place<'u>,
    pub(crate) f: &'f Function,
    pub(crate) d: &'d Directive,
    pub(crate) types: &'t [Option<CType>],
}

// Judges a listed name behind those of these sets; the answer is whether it breaks no rule.
#[tactic(auto, using(crate::proofs::Firsts::among_joined, crate::proofs::Firsts::none_among))]
fn judge_entry(at: &At, shaped: &NameSet, aligned: &NameSet, e: Entry, note: &mut Note) -> bool
    ensures noted { note.new.first ≡ first_among note.old.first
        (entry_faults_by (type_at at.now.types.now e.name) (has shaped.now e.name) (has aligned.now e.name) (directive_of at.now.d.now) e) }
    ensures sound { result ≡ is_empty (entry_faults_by (type_at at.now.types.now e.name) (has shaped.now e.name) (has aligned.now e.name) (directive_of at.now.d.now) e) }
{
    let mut own = Note { first: None };
    judge_listed(
        type_at(at.types, e.name),
        shaped.has(e.name),
        aligned.has(e.name),
        at.d,
        e,
        &mut own,
    );
    join(note, own);
    own.first.is_none()
}

// Adds a listed name to the set of its kind of list.
fn list(shaped: &mut NameSet, aligned: &mut NameSet, e: Entry) -> Result<(), Memory>
    ensures shaped { OnOk result ((id : NameId) → has shaped.new id ≡ (has shaped.old id || lists_as false e id)) }
    ensures aligned { OnOk result ((id : NameId) → has aligned.new id ≡ (has aligned.old id || lists_as true e id)) }
{
    if is_aligned(e.listed) {
        aligned.add(e.name)?;
    } else {
        shaped.add(e.name)?;
    }
    Ok(())
}

// Judges the names that a directive's clauses list, one after another; the answer is whether they break no rule.
pub(crate) fn judge_entries(
    at: &At,
    shaped: &mut NameSet,
    aligned: &mut NameSet,
    entries: &[Entry],
    note: &mut Note,
) -> Result<bool, Memory>
    requires types { AreTypes at.now.types.now at.now.f.now.params.items }
    requires shaped { Holds shaped.old nothing }
    requires aligned { Holds aligned.old nothing }
    ensures noted { OnOk result (note.new.first ≡ found (unit_of at.now.place.now) note.old.first
        (entry_visits (function_of at.now.f.now) (directive_of at.now.d.now) [] entries.now)) }
    ensures sound { IfOk result (λ sound. sound ≡ is_empty (all_entry_faults (function_of at.now.f.now) (directive_of at.now.d.now) [] entries.now)) }
    ensures shaped { OnOk result (Holds shaped.new (is_listed false entries.now)) }
    ensures aligned { OnOk result (Holds aligned.new (is_listed true entries.now)) }
{
    let mut sound = true;
    for e in entries {
        let right = judge_entry(at, shaped, aligned, *e, note);
        sound = both(sound, right);
        list(shaped, aligned, *e)?;
    }
    Ok(sound)
}
