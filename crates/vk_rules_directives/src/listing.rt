// The names that a directive's clauses list, and the sets of them.

ghost use Rattle.std.specs.Prelude.{◌≡◌, ◌&&◌, ◌||◌, ◌++◌, not, map, IfOk, OnOk};
ghost use Rattle.vk_ast.specs.declared.directives.PlacedName.{PlacedName};
ghost use Rattle.vk_ast.specs.declared.names.NameId.{NameId};
ghost use Rattle.vk_ast.specs.Directives.{clause_of, says_of};
ghost use Rattle.vk_rules_book.specs.declared.lists.Entry.{Entry};
ghost use Rattle.vk_rules_book.specs.Directives.{is_uniform_list};
ghost use Rattle.vk_rules_book.specs.Scopes.{same_name};
ghost use Rattle.vk_rules_book.specs.Visits.{entries_of, entries_said};
ghost use Rattle.vk_rules_directives.specs.Inner.Tables.{Holds, entry_of, has, lists_uniform, names_one, nothing};

use crate::entries::is_uniform;
use crate::names::NameSet;
use std::alloc::Global;
use vk_ast::{Clause, ClauseKind, Memory, PlacedName};
use vk_rules_book::{Entry, Listed};

// Adds the names of a list.
fn push_names(entries: &mut Vec<Entry>, names: &[PlacedName], listed: Listed) -> Result<(), Memory>
    ensures { OnOk result (entries.new.items ≡ entries.old.items ++ map (entry_of listed) names.now) }
{
    for n in names {
        entries.push(Entry {
            token: n.token,
            name: n.name,
            listed,
        })?;
    }
    Ok(())
}

// Adds the names that a clause lists.
fn push_said(entries: &mut Vec<Entry>, says: &ClauseKind) -> Result<(), Memory>
    ensures { OnOk result (entries.new.items ≡ entries.old.items ++ entries_said (says_of says.now)) }
{
    match says {
        ClauseKind::Uniform(names) => push_names(entries, names, Listed::Uniform),
        ClauseKind::Aligned(names, _) => push_names(entries, names, Listed::Aligned),
        ClauseKind::Linear(names, _, _) => push_names(entries, names, Listed::Linear),
        ClauseKind::Simdlen(_) | ClauseKind::Inside | ClauseKind::Outside | ClauseKind::Other =>
            push_names(entries, &[], Listed::Uniform),
    }
}

// The names that clauses list, in their order.
pub(crate) fn entries_of(alloc: Global, clauses: &[Clause]) -> Result<Vec<Entry>, Memory>
    ensures { IfOk result (λ entries. entries.items ≡ entries_of (map clause_of clauses.now)) }
{
    let mut entries = Vec::new(alloc);
    for clause in clauses {
        push_said(&mut entries, &clause.kind)?;
    }
    Ok(entries)
}

fn mark_one(uniform: &mut NameSet, e: Entry) -> Result<(), Memory>
    ensures { OnOk result ((id : NameId) → has uniform.new id ≡ (has uniform.old id || (is_uniform_list e.listed && same_name e.name id))) }
{
    if is_uniform(e.listed) {
        uniform.add(e.name)?;
    }
    Ok(())
}

// Adds the names that `uniform` lists.
pub(crate) fn mark_uniform(uniform: &mut NameSet, entries: &[Entry]) -> Result<(), Memory>
    requires { Holds uniform.old nothing }
    ensures { OnOk result (Holds uniform.new (lists_uniform entries.now)) }
{
    for e in entries {
        mark_one(uniform, *e)?;
    }
    Ok(())
}

// Takes all of these names out of a set.
pub(crate) fn forget(set: &mut NameSet, entries: &[Entry])
    ensures { (id : NameId) → has set.new id ≡ (has set.old id && not (names_one entries.now id)) }
{
    for e in entries {
        set.remove(e.name);
    }
}
