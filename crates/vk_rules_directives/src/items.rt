// The directives of a unit's functions, one item after another.

ghost use Rattle.std.specs.Prelude.{◌≡◌, ℕ, ◌<◌, ◌∷◌, ◌++◌, [], List, Some, None, length, map, IfOk, OnOk};
ghost use Rattle.vk_ast.specs.declared.names.NameId.{NameId};
ghost use Rattle.vk_ast.specs.Units.{ItemTree, function_of, item_of};
ghost use Rattle.vk_rules_book.specs.Noting.{found};
ghost use Rattle.vk_rules_book.specs.Rules.{Subject};
ghost use Rattle.vk_rules_book.specs.Scopes.{first_declaration};
ghost use Rattle.vk_rules_book.specs.Visits.{along, directives, directives_part, directive_visits};
ghost use Rattle.vk_rules_names.specs.Seen.{item_at, number_at, unit_of};
ghost use Rattle.vk_rules_directives.specs.Inner.Marks.{AreEmpty};
ghost use Rattle.vk_rules_directives.specs.Inner.Signed.{Agrees, AreOwn, AreSigned, others_at};
ghost use Rattle.vk_rules_directives.specs.Inner.Tables.{type_at};
ghost use Rattle.vk_rules_directives.specs.Inner.Working.{IsReady};

use crate::directives::{Marks, judge_list};
use crate::joins::join;
use crate::names::no_types;
use crate::params::{learn, unlearn};
use crate::redeclarations::judge_redeclaration;
use crate::signed::Signed;
use std::alloc::Global;
use vk_ast::{Function, Item, Memory, NameTable};
use vk_kinds::{CType, Target};
use vk_rules_names::{Note, Place, declare_next, no_declarations};

// Tables by the numbers of names, which say nothing between functions.
#[derive(Drop)]
pub(crate) struct Tables {
    // the types of the parameters of the function that is judged
    pub(crate) types: Vec<Option<CType>>,
    pub(crate) marks: Marks,
}

impl Tables {
    // Tables with room for so many names.
    fn new(alloc: Global, names: usize) -> Result<Tables, Memory>
        ensures { IfOk result IsReady }
    {
        let types = no_types(alloc, names)?;
        let marks = Marks::new(alloc, names)?;
        Ok(Tables { types, marks })
    }
}

// Judges the directives of a function alone.
fn judge_own(
    alloc: Global,
    place: &Place,
    tables: &mut Tables,
    f: &Function,
    note: &mut Note,
) -> Result<Signed, Memory>
    requires { IsReady tables.old }
    ensures noted { OnOk result (note.new.first ≡ found (unit_of place.now) note.old.first (directive_visits (function_of f.now) [] (function_of f.now).directives)) }
    ensures signed { IfOk result (λ s. AreSigned s (function_of f.now)) }
    ensures tables { OnOk result (IsReady tables.new) }
{
    learn(&mut tables.types, &f.params)?;
    let own = judge_list(alloc, place, &tables.types, &mut tables.marks, f, note)?;
    unlearn(&mut tables.types, &f.params)?;
    Ok(own)
}

// Judges the directives of a function behind the declarations before this place.
fn judge_function(
    alloc: Global,
    place: &Place,
    tables: &mut Tables,
    signed: &[Signed],
    f: &Function,
    note: &mut Note,
) -> Result<Signed, Memory>
    requires tables { IsReady tables.old }
    requires within { (n : ℕ) → number_at place.now.first.now f.now.name ≡ Some n → n < length signed.now }
    requires first { Agrees signed.now place.now.items.now }
    ensures noted { (before : List ItemTree) → item_at place.now.items.now place.now.first.now f.now.name ≡ first_declaration before f.now.name →
        OnOk result (note.new.first ≡ found (unit_of place.now) note.old.first (directives before (function_of f.now) ∷ directive_visits (function_of f.now) [] (function_of f.now).directives)) }
    ensures signed { IfOk result (λ s. AreSigned s (function_of f.now)) }
    ensures tables { OnOk result (IsReady tables.new) }
{
    let mut part = Note { first: None };
    let own = judge_own(alloc, place, tables, f, &mut part)?;
    judge_redeclaration(place, signed, f, &own, note);
    join(note, part);
    Ok(own)
}

fn none_signed(alloc: Global) -> Signed {
    Signed {
        list: Vec::new(alloc),
        all: true,
    }
}

// Judges the directives of an item that is a function.
fn judge_item(
    alloc: Global,
    place: &Place,
    tables: &mut Tables,
    signed: &[Signed],
    item: &Item,
    note: &mut Note,
) -> Result<Signed, Memory>
    requires tables { IsReady tables.old }
    requires within { (id : NameId) (n : ℕ) → number_at place.now.first.now id ≡ Some n → n < length signed.now }
    requires first { Agrees signed.now place.now.items.now }
    ensures noted { (before : List ItemTree) → ((id : NameId) → item_at place.now.items.now place.now.first.now id ≡ first_declaration before id) →
        OnOk result (note.new.first ≡ found (unit_of place.now) note.old.first (directives_part before (item_of item.now))) }
    ensures signed { IfOk result (λ s. AreOwn s item.now) }
    ensures tables { OnOk result (IsReady tables.new) }
{
    match item {
        Item::Function(f) => {
            let own = judge_function(alloc, place, tables, signed, f, note)?;
            Ok(own)
        }
        Item::Object(_) => Ok(none_signed(alloc)),
        Item::Lost(_) => Ok(none_signed(alloc)),
    }
}

/// Judges the directives of all functions of a unit (OpenMP 5.2, 7.7): the form of clauses, the names that they list, the variants
/// of each directive, and later declarations against the first.
///
/// The first fault of those and of what was noted before is noted; `Memory` is the only error.
pub fn judge_directives(
    alloc: Global,
    target: Target,
    names: &NameTable,
    items: &[Item],
    note: &mut Note,
) -> Result<(), Memory>
    ensures { OnOk result (note.new.first ≡ found (record { items = map item_of items.now; texts = names.now; target = target }) note.old.first
        (along directives_part [] (map item_of items.now))) }
{
    let mut tables = Tables::new(alloc, names.len())?;
    let mut first = no_declarations(alloc, names.len())?;
    let mut signed = Vec::new(alloc);
    for (number, item) in items.iter().enumerate() {
        let place = Place {
            target,
            names,
            items,
            first: &first,
        };
        let own = judge_item(alloc, &place, &mut tables, &signed, item, note)?;
        signed.push(own)?;
        declare_next(&mut first, items, number)?;
    }
    Ok(())
}
